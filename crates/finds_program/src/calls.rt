// The index's public calls, each with a line that says what it answered.
use crate::line::Line;
use index::Greatest;
use refusals::Refusal;

// The words that the index of t places takes; 0 where t is refused.
pub(crate) fn words(t: usize) -> usize {
    index::words_needed(t).unwrap_or(0)
}

fn refused(line: Line, why: Refusal) {
    line.and(b" no ", why.number() as usize).end(b"");
}

pub(crate) fn size(t: usize) {
    let line = Line::new(b"size ", t);
    match index::words_needed(t) {
        Ok(n) => line.and(b" words ", n).end(b""),
        Err(why) => refused(line, why),
    }
}

fn change(line: Line, answer: Result<(), Refusal>) {
    match answer {
        Ok(()) => line.end(b" done"),
        Err(why) => refused(line, why),
    }
}

pub(crate) fn prepare(index: &mut [u64], t: usize) {
    change(Line::new(b"prepare ", t), index::prepare(index, t));
}

pub(crate) fn set(index: &mut [u64], t: usize, p: usize) {
    change(Line::new(b"set ", p), index::set(index, t, p));
}

pub(crate) fn clear(index: &mut [u64], t: usize, p: usize) {
    change(Line::new(b"clear ", p), index::clear(index, t, p));
}

pub(crate) fn put(index: &mut [u64], t: usize, p: usize, v: bool) {
    if v {
        set(index, t, p);
    } else {
        clear(index, t, p);
    }
}

// Answers true for a member alone.
pub(crate) fn is_set(index: &[u64], t: usize, p: usize) -> bool {
    let line = Line::new(b"is ", p);
    let answer = index::is_set(index, t, p);
    match answer {
        Ok(true) => line.end(b" member"),
        Ok(false) => line.end(b" absent"),
        Err(why) => refused(line, why),
    }
    matches!(answer, Ok(true))
}

// Ends the line with the number of words read.
fn read(line: Line, words: u32) {
    line.and(b" words ", words as usize).end(b"");
}

pub(crate) fn find(index: &[u64], t: usize, p: usize) {
    let line = Line::new(b"find ", p);
    match index::find(index, t, p) {
        Ok(
            Greatest {
                place: Some(q),
                words,
            },
        ) => read(line.and(b" start ", q), words),
        Ok(Greatest { place: None, words }) => line.and(b" none words ", words as usize).end(b""),
        Err(no) => read(line.and(b" no ", no.refusal.number() as usize), no.words),
    }
}
