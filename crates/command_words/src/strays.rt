// Words that are no part of a command line.
ghost use Rattle.std.specs.Prelude.{◌≡◌, List, map, not, option_map, string_bytes};
ghost use Rattle.std.specs.List.{list_all};
ghost use Rattle.clap.specs.Lexer.{name_and_value, strip_byte};
ghost use Rattle.command_words.specs.Arguments.{after_equals, before_equals, has_no_stray, is_one_of, is_stray};
ghost use Rattle.command_words.specs.Arguments.{option_word, kind_of_word};
ghost use Rattle.command_words.specs.ClapCommand.{options_of};

/// Whether no word is empty, is `--`, or begins with `-` and is none of these options.
pub(crate) fn has_no_stray(valued: &[&str], flags: &[&str], words: &[String]) -> bool
    ensures { result ≡ list_all (λ word. not (is_stray (kind_of_word (options_of valued.now flags.now)
        (string_bytes word)))) words.now }
{
    words
        .iter()
        .all(|word| !is_stray(valued, flags, word.as_str()))
}

fn is_stray(valued: &[&str], flags: &[&str], word: &str) -> bool
    ensures { result ≡ is_stray (kind_of_word (options_of valued.now flags.now) word.now) }
{
    let Some(rest) = without_dash(word) else {
        return word.is_empty();
    };
    match without_dash(rest) {
        Some(text) => is_stray_option(valued, flags, text),
        None => true,
    }
}

// Whether a word that begins with `--` and goes on like this is no option.
fn is_stray_option(valued: &[&str], flags: &[&str], text: &str) -> bool
    ensures { result ≡ is_stray (option_word (options_of valued.now flags.now)
        (before_equals text.now) (after_equals text.now)) }
{
    match split_value(text) {
        (name, Some(_)) => !is_one_of(valued, name),
        (name, None) => !is_one_of(valued, name) && !is_one_of(flags, name),
    }
}

fn is_one_of(names: &[&str], name: &str) -> bool
    ensures { result ≡ is_one_of (map (λ s. s.now) names.now) name.now }
{
    names.contains(&name)
}

// What follows a first hyphen.
fn without_dash(word: &str) -> Option<&str>
    ensures { option_map (λ s. s.now) result ≡ strip_byte 45 word.now }
{
    word.strip_prefix('-')
}

// What stands before the first `=`, and what stands after it if there is one.
fn split_value(text: &str) -> (&str, Option<&str>)
    ensures { (result.0.now, option_map (λ s. s.now) result.1) ≡ name_and_value text.now }
{
    match text.split_once('=') {
        Some((name, value)) => (name, Some(value)),
        None => (text, None),
    }
}
