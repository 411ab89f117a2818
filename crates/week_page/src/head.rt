ghost use Rattle.std.specs.Prelude.{◌≡◌, ◌++◌, codes, OnOk};
ghost use Rattle.std.specs.List.{flat_map};
ghost use Rattle.week_page.specs.Escaped.{escaped};
ghost use Rattle.week_page.specs.Page.{title_text, before_title, head_text};

use crate::names::push_escaped;
use crate::style::push_style;
use ctt_reader::Instance;
use std::alloc::AllocError;
use values::Text;

/// Adds all that stands before the tables.
#[tactic(auto, unfolding(crate::specs::Page::head_text))]
pub fn push_head(text: &mut Vec<u8>, i: &Instance) -> Result<(), AllocError>
    ensures { OnOk result (text.new.items ≡ text.old.items ++ head_text i.now) }
{
    push_before_title(text)?;
    push_title(text, i)?;
    text.extend_from_slice(b"</title>\n<style>\n")?;
    push_style(text)?;
    text.extend_from_slice(b"</style>\n</head>\n<body>\n<h1>")?;
    push_title(text, i)?;
    text.extend_from_slice(b"</h1>\n")?;
    Ok(())
}

#[tactic(auto, unfolding(crate::specs::Page::before_title))]
fn push_before_title(text: &mut Vec<u8>) -> Result<(), AllocError>
    ensures { OnOk result (text.new.items ≡ text.old.items ++ before_title) }
{
    text.extend_from_slice(
        b"<!DOCTYPE html>\n<html lang=\"en\">\n<head>\n<meta charset=\"utf-8\">\n<meta name=\"viewport\" content=\"width=device-width, initial-scale=1\">\n<title>",
    )?;
    Ok(())
}

#[tactic(auto, unfolding(crate::specs::Page::title_text))]
fn push_title(text: &mut Vec<u8>, i: &Instance) -> Result<(), AllocError>
    ensures { OnOk result (text.new.items ≡ text.old.items ++ title_text i.now) }
{
    text.extend_from_slice(b"Timetable:")?;
    push_words(text, i.title.as_slice())
}

/// Adds the words, each after a blank.
fn push_words(text: &mut Vec<u8>, words: &[Text]) -> Result<(), AllocError>
    ensures { OnOk result (text.new.items ≡ text.old.items ++ flat_map (λ word. codes " " ++ escaped word) words.now) }
{
    for word in words {
        push_word(text, word)?;
    }
    Ok(())
}

fn push_word(text: &mut Vec<u8>, word: &Text) -> Result<(), AllocError>
    ensures { OnOk result (text.new.items ≡ text.old.items ++ (codes " " ++ escaped word.now)) }
{
    text.extend_from_slice(b" ")?;
    push_escaped(text, word.as_bytes())
}
