// What the matches say.
ghost use Rattle.std.specs.Prelude.{◌≡◌, ◌≤◌, IfSome};
ghost use Rattle.command_words.specs.ClapCommand.{value_said};
ghost use Rattle.command_words.specs.Tasks.{given_or, number_in};

use clap::ArgMatches;
use script_text::whole_number;

/// The number that the option gives, or the default where it is not given.
pub(crate) fn number_of(
    matches: &ArgMatches<'_>,
    name: &str,
    default: u64,
    least: u64,
    most: u64,
) -> Option<u64>
    requires { (least ≤ default) × (default ≤ most) }
    ensures number { result ≡ given_or default least most (value_said matches.now name.now) }
    ensures limits { IfSome result (λ number. (least ≤ number) × (number ≤ most)) }
{
    match matches.get_str(name) {
        Some(word) => number_in(word, least, most),
        None => Some(default),
    }
}

/// The value of 1 to 20 digits, leading zeros allowed, where it lies between these.
#[tactic(auto, unfolding(crate::specs::Tasks::number_in))]
pub(crate) fn number_in(word: &str, least: u64, most: u64) -> Option<u64>
    ensures number { result ≡ number_in least most word.now }
    ensures limits { IfSome result (λ number. (least ≤ number) × (number ≤ most)) }
{
    let number = whole_number(word.as_bytes())?;
    if least <= number && number <= most {
        Some(number)
    } else {
        None
    }
}
