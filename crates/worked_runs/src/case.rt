use std::alloc::{AllocError, Global};

/// The arithmetic of a run: numbers of 128 bits, of 64 bits, or none.
#[derive(Clone, Copy)]
pub enum Numbers {
    Wide,
    Narrow,
    None,
}

/// The words of the program, over which arithmetic, and which calls fail.
#[derive(Drop)]
pub struct Case {
    pub words: Vec<String>,
    pub numbers: Numbers,
    pub failing: Vec<u64>,
    pub sink_failing: Vec<(u64, usize)>,
}

/// The case of such words.
pub fn case_of(alloc: Global, words: &str) -> Result<Case, AllocError> {
    let mut case = Case {
        words: Vec::new(alloc),
        numbers: Numbers::Wide,
        failing: Vec::new(alloc),
        sink_failing: Vec::new(alloc),
    };
    for word in words.split_ascii_whitespace() {
        take_word(alloc, word, &mut case)?;
    }
    Ok(case)
}

fn take_word(alloc: Global, word: &str, case: &mut Case) -> Result<(), AllocError> {
    if let Some(call) = failing_call(word) {
        case.failing.push(call)?;
        return Ok(());
    }
    if let Some(call) = failing_write(word) {
        case.sink_failing.push(call)?;
        return Ok(());
    }
    match word {
        "~64" => case.numbers = Numbers::Narrow,
        "~none" => case.numbers = Numbers::None,
        _ => case.words.push(String::from_str(alloc, word)?)?,
    }
    Ok(())
}

/// The number of a failing call of the shelf, if the word is one.
fn failing_call(word: &str) -> Option<u64> {
    word.strip_prefix('!')?.parse().ok()
}

/// The number of a failing call of the sink, and after how many bytes it fails, if the word says so.
fn failing_write(word: &str) -> Option<(u64, usize)> {
    let (call, count) = word.split_once(':')?;
    Some((call.parse().ok()?, count.parse().ok()?))
}
