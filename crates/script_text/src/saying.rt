// What a line of a script says.
ghost use Rattle.std.specs.Prelude.{◌≡◌, ◌^◌, ◌∷◌, [], All, IfOk};
ghost use Rattle.std.specs.List.{list_all};
ghost use Rattle.htss_defs.specs.FileName.{IsFileName};
ghost use Rattle.mol_section.specs.Fields.{is_blank, words_of};
ghost use Rattle.script_text.specs.Grammar.{is_comment, is_plain, is_printable, number_below, says, withdrawal};
ghost use Rattle.script_text.specs.Grammar.{words_say};

use crate::Order;
use crate::numbers::{record_number, text_of, whole_number};
use htss_defs::{FileName, OutOfMemory};
use mol_section::next_word;
use std::alloc::Global;

// The most bytes of a line that is read.
const LONGEST: usize = 4096;

/// What a line says.
#[derive(Debug, Drop)]
pub enum Saying {
    /// Nothing: it is a comment or blank.
    Passed,
    /// The group ends.
    Settles,
    /// A job.
    Asks(Order),
    /// It is no line of a script.
    Wrong,
}

/// What the line says.
#[tactic(auto, unfolding(crate::specs::Grammar::says))]
pub fn saying_of(alloc: Global, line: &[u8]) -> Result<Saying, OutOfMemory>
    ensures { IfOk result (λ saying. saying ≡ says line.now) }
{
    if is_comment(line) || is_blank(line) {
        return Ok(Saying::Passed);
    }
    if !is_plain(line) {
        return Ok(Saying::Wrong);
    }
    words_say(alloc, line)
}

// What the words of the text say.
fn words_say(alloc: Global, text: &[u8]) -> Result<Saying, OutOfMemory>
    requires { All IsFileName (words_of text.now) }
    ensures { IfOk result (λ saying. saying ≡ words_say (words_of text.now)) }
{
    let Some((command, rest)) = next_word(text) else {
        return Ok(Saying::Wrong);
    };
    let Some((first, rest)) = next_word(rest) else {
        return Ok(command_says(command));
    };
    let Some((second, rest)) = next_word(rest) else {
        return one_word_says(alloc, command, first);
    };
    if next_word(rest).is_some() {
        return Ok(Saying::Wrong);
    }
    two_words_say(alloc, command, first, second)
}

// What a command with no further word says.
fn command_says(command: &[u8]) -> Saying
    ensures { result ≡ words_say (command.now ∷ []) }
{
    if command == b"settle".as_slice() {
        Saying::Settles
    } else {
        Saying::Wrong
    }
}

// What a command with one further word says.
fn one_word_says(alloc: Global, command: &[u8], word: &[u8]) -> Result<Saying, OutOfMemory>
    requires { IsFileName word.now }
    ensures { IfOk result (λ saying. saying ≡ words_say (command.now ∷ word.now ∷ [])) }
{
    if command == b"load".as_slice() {
        let file = file_name(alloc, word)?;
        Ok(Saying::Asks(Order::Load { file }))
    } else if command == b"withdraw".as_slice() {
        Ok(withdrawal(word))
    } else if command == b"search".as_slice() {
        let file = file_name(alloc, word)?;
        Ok(Saying::Asks(Order::Search { file, budget: None }))
    } else {
        Ok(Saying::Wrong)
    }
}

// What a command with two further words says.
fn two_words_say(
    alloc: Global,
    command: &[u8],
    first: &[u8],
    second: &[u8],
) -> Result<Saying, OutOfMemory>
    requires { IsFileName first.now }
    ensures { IfOk result (λ saying.
        saying ≡ words_say (command.now ∷ first.now ∷ second.now ∷ [])) }
{
    if command != b"search".as_slice() {
        return Ok(Saying::Wrong);
    }
    let Some(budget) = whole_number(second) else {
        return Ok(Saying::Wrong);
    };
    let file = file_name(alloc, first)?;
    Ok(Saying::Asks(Order::Search {
        file,
        budget: Some(budget),
    }))
}

// What a withdrawal of the number that the word writes says.
fn withdrawal(word: &[u8]) -> Saying
    ensures { result ≡ withdrawal (number_below 10 (2 ^ 32) word.now) }
{
    match record_number(word) {
        Some(number) => Saying::Asks(Order::Withdraw { number }),
        None => Saying::Wrong,
    }
}

// The file name that the word is.
fn file_name(alloc: Global, word: &[u8]) -> Result<FileName, OutOfMemory>
    requires { IsFileName word.now }
    ensures { IfOk result (λ name. name ≡ word.now) }
{
    let text = String::from_str(alloc, text_of(word))?;
    Ok(FileName::new(text).unwrap())
}

// Whether it is a comment.
fn is_comment(line: &[u8]) -> bool
    ensures { result ≡ is_comment line.now }
{
    match line {
        [] => false,
        [first, ..] => *first == b'#',
    }
}

// Whether it has no bytes but spaces.
fn is_blank(line: &[u8]) -> bool
    ensures { result ≡ is_blank line.now }
{
    line.iter().all(|byte| *byte == b' ')
}

// Whether it has at most 4,096 bytes, each 32 to 126.
fn is_plain(line: &[u8]) -> bool
    ensures { result ≡ is_plain line.now }
{
    line.len() <= LONGEST && are_printable(line)
}

fn are_printable(line: &[u8]) -> bool
    ensures { result ≡ list_all is_printable line.now }
{
    line.iter().all(|byte| is_printable(*byte))
}

fn is_printable(byte: u8) -> bool
    ensures { result ≡ is_printable byte }
{
    32 <= byte && byte <= 126
}
