//! A cutter of at most three messages a batch, 100 bytes preferred and 1,000 at most, and which
//! batches it cuts. More that is cut is a line of `test/cases`, `run sizes.json`.

use batch_cutter::{Cause, Cut, Cutter, Weigh};

#[derive(Drop)]
struct Parcel(usize);

impl Weigh for Parcel {
    ghost weight = { λ p. p.0 };

    fn weight(&self) -> usize {
        self.0
    }
}

/// Whether a batch is of messages of these sizes.
fn are_sizes(batch: &[Parcel], sizes: &[usize]) -> bool {
    let mut are = batch.len() == sizes.len();
    for (parcel, size) in batch.iter().zip(sizes) {
        are &= parcel.0 == *size;
    }
    are
}

/// Whether a message of this size is taken, and cuts batches of these sizes.
fn cuts(cutter: &mut Cutter<Parcel>, size: usize, batches: &[&[usize]]) -> bool {
    match (cutter.offer(Parcel(size)), batches) {
        (Ok(Cut::Nothing), []) => true,
        (Ok(Cut::One(batch)), [sizes]) => are_sizes(&batch, sizes),
        (Ok(Cut::Two(first, second)), [sizes, others]) => {
            are_sizes(&first, sizes) && are_sizes(&second, others)
        }
        _ => false,
    }
}

/// Whether a timeout cuts a batch of these sizes.
fn times_out(cutter: &mut Cutter<Parcel>, sizes: &[usize]) -> bool {
    match cutter.timeout() {
        Some(batch) => are_sizes(&batch, sizes),
        None => false,
    }
}

/// Whether a message of this size is handed back as too large.
fn is_too_large(cutter: &mut Cutter<Parcel>, size: usize) -> bool {
    match cutter.offer(Parcel(size)) {
        Ok(_) => false,
        Err(offered) => offered.message.0 == size && offered.cause == Cause::TooLarge,
    }
}

/// Whether messages of 60, 50, 120 and 10 bytes and a timeout are cut as they have to be.
fn are_first(cutter: &mut Cutter<Parcel>) -> bool {
    // It waits: one of three, and 60 are not above 100.
    cuts(cutter, 60, &[])
        // With those 60 they would be 110, above 100: what waits is cut before it.
        && cuts(cutter, 50, &[&[60]])
        // It is above 100: what waits is cut, and then it alone.
        && cuts(cutter, 120, &[&[50], &[120]])
        // Nothing waits before it, until time is up.
        && cuts(cutter, 10, &[])
        && times_out(cutter, &[10])
}

/// Whether messages of 60, 40, 1,000 and 1,001 bytes are cut as they have to be, behind one of 10
/// bytes or none: `second` is what the second cuts, and `left` what waits then.
fn are_next(cutter: &mut Cutter<Parcel>, second: &[&[usize]], left: &[usize]) -> bool {
    // 60 or 70 are not above 100, and these are one or two of three.
    cuts(cutter, 60, &[])
        // 110 are above 100, and what waits is cut; 100 are not, and these are two of three.
        && cuts(cutter, 40, second)
        // It is above 100 and not above 1,000: what waits is cut, and then it alone.
        && cuts(cutter, 1000, &[left, &[1000]])
        // It is above 1,000, and nothing waits before it or after it.
        && is_too_large(cutter, 1001)
        && cutter.timeout().is_none()
}

/// Whether the messages are cut so, first behind none, and then behind one of 10 bytes.
fn are_cut(cutter: &mut Cutter<Parcel>) -> bool {
    are_first(cutter)
        && are_next(cutter, &[], &[60, 40])
        && cuts(cutter, 10, &[])
        && are_next(cutter, &[&[10, 60]], &[40])
}

#[test]
fn messages_are_cut_by_their_sizes(rt: HostRuntime) {
    let are_cut = are_cut(&mut Cutter::new(rt.alloc(), 3, 100, 1000));
    assert!(rt; are_cut);
}
