// What the lists make of the tests.
ghost use Rattle.std.specs.Prelude.{◌≡◌, ℕ, ◌-◌, ◌≤◌, ◌||◌, Some, true, false, not, is_some};
ghost use Rattle.std.specs.Prelude.{length, slice_set, if◌then◌else◌};
ghost use Rattle.query_mol.specs.QueryLines.{old_list_of, new_list_of, is_new_list};
ghost use Rattle.query_mol.specs.Tests.{listed_test, with_list, with_new_list};

use crate::lists::{Listed, new_list_of, old_list_of};
use htss_defs::AtomTest;

/// Takes the list of a line `M  ALS`, and answers whether it can be read.
#[tactic(auto, unfolding(crate::specs::Tests::with_new_list))]
pub fn take_new_list(line: &[u8], tests: &mut [Option<AtomTest>]) -> bool
    requires { length tests.old ≤ 999 }
    ensures passes { result ≡ (not (is_new_list line.now) || is_some (new_list_of (length tests.old) line.now)) }
    ensures tests { result ≡ true → tests.new ≡ with_new_list (length tests.old) line.now tests.old }
    ensures same { result ≡ false → tests.new ≡ tests.old }
{
    if !line.starts_with(b"M  ALS") {
        return true;
    }
    let size = tests.len() as u16;
    match new_list_of(line, size) {
        None => false,
        Some(one) => {
            put_list(tests, one);
            true
        }
    }
}

/// Takes the list of an old list line, and answers whether it can be read.
pub fn take_old_list(line: &[u8], tests: &mut [Option<AtomTest>]) -> bool
    requires { length tests.old ≤ 999 }
    ensures passes { result ≡ is_some (old_list_of (length tests.old) line.now) }
    ensures tests { result ≡ true → tests.new ≡ with_list tests.old (old_list_of (length tests.old) line.now) }
    ensures same { result ≡ false → tests.new ≡ tests.old }
{
    let size = tests.len() as u16;
    match old_list_of(line, size) {
        None => false,
        Some(one) => {
            put_list(tests, one);
            true
        }
    }
}

fn put_list(tests: &mut [Option<AtomTest>], one: Listed)
    requires low { 1 ≤ one.place }
    requires high { one.place ≤ length tests.old }
    ensures { tests.new ≡ slice_set tests.old (one.place - 1) (Some (listed_test one)) }
{
    let at = one.place as usize - 1;
    tests[at] = Some(listed_test(one));
}

fn listed_test(one: Listed) -> AtomTest
    ensures { result ≡ listed_test one }
{
    if one.excludes {
        AtomTest::NoneOf(one.elements)
    } else {
        AtomTest::OneOf(one.elements)
    }
}
