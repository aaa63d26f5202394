//! Laws of lines.

ghost use Rattle.std.specs.Prelude.{◌≡◌, List, ℕ};
ghost use Rattle.json_questions.specs.Spelling.{SpellsQuestion};
ghost use Rattle.json_questions.specs.declared.question.Question.{Question};

/// A line spells at most one question.
pub fn a_line_spells_one_question()
    ensures { (line : List ℕ) (q r : Question) → SpellsQuestion line q → SpellsQuestion line r →
        q ≡ r }
{}
