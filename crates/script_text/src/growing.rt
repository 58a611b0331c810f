// The trees that stand on the rings of generated records.
ghost use Rattle.std.specs.Prelude.{◌≡◌, ◌≤◌, ◌<◌, ◌^◌};
ghost use Rattle.script_text.specs.Generator.{drawn, drawn_parent, grown, grown_state, letter, next_state, tree_of};
ghost use Rattle.script_text.specs.Generator.{after_tree};

use arrayvec::ArrayVec;

// The generator's multiplier and increment.
const MULTIPLIER: u128 = 6364136223846793005;

const INCREMENT: u128 = 1442695040888963407;

/// An atom of a tree.
#[derive(Clone, Copy, Debug, Default)]
pub struct Grown {
    /// The number of the atom, 7 to 25.
    pub number: u8,
    /// The letter of its element.
    pub letter: u8,
    /// The number of the atom to which it is bound, less than its own.
    pub parent: u8,
}

/// The tree that is drawn from this state, and the state after it.
pub fn grow_tree(start: u64) -> (ArrayVec<Grown, 19>, u64)
    ensures tree { result.0.items ≡ tree_of start }
    ensures state { result.1 ≡ after_tree start }
{
    let mut tree = ArrayVec::new();
    let mut state = start;
    for number in 7..26 {
        let (atom, after) = grow(number, state);
        tree.push(atom);
        state = after;
    }
    (tree, state)
}

// The atom of this number that is drawn from this state, and the state after it.
fn grow(number: u8, state: u64) -> (Grown, u64)
    requires { 7 ≤ number }
    ensures atom { result.0 ≡ grown number state }
    ensures state { result.1 ≡ grown_state number state }
{
    let one = next_state(state);
    let letter = letter(drawn(one));
    if number < 9 {
        let parent = number - 1;
        return (
            Grown {
                number,
                letter,
                parent,
            },
            one,
        );
    }
    let two = next_state(one);
    let parent = drawn_parent(number, drawn(two));
    (
        Grown {
            number,
            letter,
            parent,
        },
        two,
    )
}

/// The state after a draw.
#[tactic(auto, unfolding(crate::specs::Generator::next_state))]
pub fn next_state(state: u64) -> u64
    ensures { result ≡ next_state state }
{
    ((u128::from(state) * MULTIPLIER + INCREMENT) % (1 << 64)) as u64
}

/// What the draw gives that left this state, below 2^31.
#[tactic(auto, unfolding(crate::specs::Generator::drawn))]
pub fn drawn(state: u64) -> u64
    ensures { result ≡ drawn state }
{
    state / (1 << 33)
}

// The letter of the element that a draw chooses.
fn letter(draw: u64) -> u8
    ensures { result ≡ letter draw }
{
    match draw % 10 {
        0..=5 => b'C',
        6 => b'N',
        7 => b'O',
        8 => b'S',
        _ => b'F',
    }
}

// The parent of the atom that a draw chooses.
fn drawn_parent(number: u8, draw: u64) -> u8
    requires { 2 ≤ number }
    ensures { result ≡ drawn_parent number draw }
{
    if draw % 2 == 0 {
        number - 1
    } else {
        number - 2
    }
}
