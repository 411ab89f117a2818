ghost use Rattle.std.specs.Prelude.{◌≡◌};
ghost use Rattle.measure_file.specs.Grammar.{length_word, version_in, version_of, word_of};

use input_core::{Fields, LineKind};

/// The version of a measures file. Lengths are listed from version 2 on.
#[derive(Clone, Copy)]
pub enum FileVersion {
    One,
    Two,
}

/// The first field of a line.
#[derive(Clone, Copy)]
pub enum Word {
    Has,
    Need,
    Deny,
    Closed,
    Prefer,
    Robust,
    Length,
}

/// The version of the line `measures VERSION`.
pub fn read_version(fields: &mut Fields) -> Result<FileVersion, LineKind>
    ensures { result ≡ version_of fields.old }
{
    let Some(word) = fields.next() else {
        return Err(LineKind::Keyword);
    };
    if word != b"measures".as_slice() {
        return Err(LineKind::Keyword);
    }
    let Some(version) = fields.next() else {
        return Err(LineKind::Fields);
    };
    if fields.next().is_some() {
        return Err(LineKind::Fields);
    }
    version_in(version)
}

fn version_in(field: &[u8]) -> Result<FileVersion, LineKind>
    ensures { result ≡ version_in field.now }
{
    if field == b"1".as_slice() {
        Ok(FileVersion::One)
    } else if field == b"2".as_slice() {
        Ok(FileVersion::Two)
    } else {
        Err(LineKind::Version)
    }
}

/// The word that may begin a line in a file of this version.
pub fn read_word(version: FileVersion, word: &[u8]) -> Result<Word, LineKind>
    ensures { result ≡ word_of version word.now }
{
    if word == b"has".as_slice() {
        Ok(Word::Has)
    } else if word == b"need".as_slice() {
        Ok(Word::Need)
    } else if word == b"deny".as_slice() {
        Ok(Word::Deny)
    } else if word == b"closed".as_slice() {
        Ok(Word::Closed)
    } else if word == b"prefer".as_slice() {
        Ok(Word::Prefer)
    } else if word == b"robust".as_slice() {
        Ok(Word::Robust)
    } else if word == b"length".as_slice() {
        length_word(version)
    } else {
        Err(LineKind::Keyword)
    }
}

fn length_word(version: FileVersion) -> Result<Word, LineKind>
    ensures { result ≡ length_word version }
{
    match version {
        FileVersion::One => Err(LineKind::Keyword),
        FileVersion::Two => Ok(Word::Length),
    }
}
