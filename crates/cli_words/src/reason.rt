//! Why words name no task, in words.

use crate::table::{Form, rows};
use crate::values::{is_right, rule_of};
use nearest_word::nearest;
use std::alloc::{AllocError, Global};
use std::fmt::{self, Display, Formatter, Write};

/// Why words name no task: a sentence that ends with `(usage)`.
pub fn words_reason(alloc: Global, words: &[String]) -> Result<String, AllocError> {
    let [command, words @ ..] = words else {
        return format!(in alloc; "a command is needed, in UTF-8: {Commands} (usage)");
    };
    for row in rows() {
        let form = Form::of(row);
        if form.name == command.as_str() {
            return reason_of(alloc, &form, words);
        }
    }
    unknown_command(alloc, command)
}

/// Why a word is no command.
fn unknown_command(alloc: Global, word: &str) -> Result<String, AllocError> {
    let mut names = Vec::new(alloc);
    for (name, _, _, _) in rows() {
        names.push(*name)?;
    }
    match nearest(alloc, word, &names)? {
        Some(name) => format!(in alloc;
            "there is no command {word:?}; did you mean {name:?}? (usage)"
        ),
        None => format!(in alloc; "there is no command {word:?}; there are {Commands} (usage)"),
    }
}

/// Why the words behind a command are none of it.
fn reason_of(alloc: Global, form: &Form, words: &[String]) -> Result<String, AllocError> {
    let mut reading = Reading {
        form,
        places: 0,
        seen: Vec::new(alloc),
        pending: None,
        is_behind_options: false,
    };
    let fault = match reading.fault_in(alloc, words)? {
        Some(fault) => fault,
        None => String::from_str(alloc, "the words are none of this command")?,
    };
    let name = form.name;
    format!(in alloc; "{name}: {fault} (usage)")
}

/// What was read of the words behind a command.
#[derive(Drop)]
struct Reading<'a> {
    form: &'a Form,
    /// How many of its words.
    places: usize,
    /// Its options, by their names.
    seen: Vec<&'a str>,
    /// The option whose value is next, by its name.
    pending: Option<&'a str>,
    /// Whether `--` was read, behind which there are no options.
    is_behind_options: bool,
}

impl<'a> Reading<'a> {
    /// The first fault of these words.
    fn fault_in(&mut self, alloc: Global, words: &[String]) -> Result<Option<String>, AllocError> {
        for word in words {
            if let Some(fault) = self.take(alloc, word)? {
                return Ok(Some(fault));
            }
        }
        self.fault_at_end(alloc)
    }

    /// Reads a word. Its fault, if it has one.
    fn take(&mut self, alloc: Global, word: &str) -> Result<Option<String>, AllocError> {
        if let Some(name) = self.pending.take() {
            return value_fault(alloc, name, word);
        }
        if self.is_behind_options || word == "-" || !word.starts_with('-') {
            return self.take_place(alloc, word);
        }
        if word == "--" {
            self.is_behind_options = true;
            return Ok(None);
        }
        match word.strip_prefix("--") {
            Some(option) => self.take_option(alloc, option),
            None => unknown_option(alloc, self.form, word).map(Some),
        }
    }

    /// Reads a word that is no option.
    fn take_place(&mut self, alloc: Global, word: &str) -> Result<Option<String>, AllocError> {
        let Some(name) = self.form.words.get(self.places) else {
            return format!(in alloc; "{word:?} is one word too many").map(Some);
        };
        self.places = self.places.saturating_add(1);
        if is_right(alloc, name, word)? {
            return Ok(None);
        }
        let rule = rule_of(name);
        format!(in alloc; "{name} is {word:?}; it has to be {rule}").map(Some)
    }

    /// Reads an option, which may have a value behind `=`, without the `--` before it.
    fn take_option(&mut self, alloc: Global, option: &str) -> Result<Option<String>, AllocError> {
        let (name, inline) = match option.split_once('=') {
            Some((name, value)) => (name, Some(value)),
            None => (option, None),
        };
        for (known, value) in self.form.options {
            if *known == name {
                return self.take_known(alloc, known, value, inline);
            }
        }
        let word = format!(in alloc; "--{name}")?;
        unknown_option(alloc, self.form, &word).map(Some)
    }

    /// Reads an option that the command has, with the name of its value, and the value behind `=`.
    fn take_known(
        &mut self,
        alloc: Global,
        name: &'a str,
        value: &str,
        inline: Option<&str>,
    ) -> Result<Option<String>, AllocError> {
        if self.seen.contains(&name) {
            return format!(in alloc; "--{name} stands twice").map(Some);
        }
        self.seen.push(name)?;
        match inline {
            Some(_) if value.is_empty() => format!(in alloc; "--{name} takes no value").map(Some),
            Some(text) => wrong_value(alloc, name, text),
            None => {
                self.pending = if value.is_empty() { None } else { Some(name) };
                Ok(None)
            }
        }
    }

    /// What is missing behind the last word, or what may not stand side by side.
    fn fault_at_end(&self, alloc: Global) -> Result<Option<String>, AllocError> {
        if let Some(name) = self.pending {
            return format!(in alloc; "--{name} has no value behind it").map(Some);
        }
        if let Some(name) = self.form.words.get(self.places) {
            return format!(in alloc; "{name} is missing").map(Some);
        }
        if self.seen.contains(&"key") && self.seen.contains(&"members") {
            return format!(in alloc; "--key and --members exclude each other").map(Some);
        }
        Ok(None)
    }
}

/// What is wrong with the word behind an option, as its value.
fn value_fault(alloc: Global, name: &str, word: &str) -> Result<Option<String>, AllocError> {
    if word.len() > 1 && word.starts_with('-') && is_right(alloc, name, word)? {
        return format!(in alloc;
            "--{name} has no value behind it: one that begins with - is written --{name}={word}"
        ).map(Some);
    }
    wrong_value(alloc, name, word)
}

/// What is wrong with the value of an option.
fn wrong_value(alloc: Global, name: &str, text: &str) -> Result<Option<String>, AllocError> {
    if is_right(alloc, name, text)? {
        return Ok(None);
    }
    let rule = rule_of(name);
    format!(in alloc; "--{name} is {text:?}; it has to be {rule}").map(Some)
}

/// Why a word is no option of a command.
fn unknown_option(alloc: Global, form: &Form, word: &str) -> Result<String, AllocError> {
    let mut names = Vec::new(alloc);
    for (name, _) in form.options {
        names.push(*name)?;
    }
    let bare = word.trim_start_matches('-');
    match nearest(alloc, bare, &names)? {
        Some(name) => format!(in alloc; "there is no option {word:?}; did you mean \"--{name}\"?"),
        None => {
            let options = Options(form);
            format!(in alloc; "there is no option {word:?}; there {options}")
        }
    }
}

/// The names of all commands, as `{}` prints them.
#[derive(Clone, Copy)]
struct Commands;

impl Display for Commands {
    fn fmt<W: Write>(&self, f: &mut Formatter<W>) -> fmt::Result {
        let mut lead = "";
        for (name, _, _, _) in rows() {
            write!(f, "{lead}{name}")?;
            lead = ", ";
        }
        Ok(())
    }
}

/// The options that a command has, as `{}` prints them behind `there`.
#[derive(Clone, Copy)]
struct Options<'a>(&'a Form);

impl Display for Options<'_> {
    fn fmt<W: Write>(&self, f: &mut Formatter<W>) -> fmt::Result {
        let mut lead = "are";
        for (name, _) in self.0.options {
            write!(f, "{lead} --{name}")?;
            lead = ",";
        }
        if self.0.options.is_empty() {
            write!(f, "are none")?;
        }
        Ok(())
    }
}
