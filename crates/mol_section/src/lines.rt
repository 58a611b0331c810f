// The lines of the bytes, from the front.
ghost use Rattle.std.specs.Prelude.{◌≡◌, ◌≢◌, ℕ, ◌<◌, ◌≤◌, [], ◌∷◌, length, slice_index};
ghost use Rattle.std.specs.Prelude.{IfSome, IfNone, IfOk, IfErr};
ghost use Rattle.mol_section.specs.Lines.{lines_of, raw_lines, without_cr};
ghost use Rattle.mol_section.specs.Walk.{IsLineFault};

use memchr::memchr;

const LONGEST: usize = 4096;

/// The first line and what stands after it, or the code where no line is left or it is too long.
#[tactic(auto, using(crate::proofs::RawLines::lines_of_none))]
pub fn line_at(bytes: &[u8]) -> Result<(&[u8], &[u8]), u8>
    ensures fault { IfErr result (λ code. IsLineFault (lines_of bytes.now) code) }
    ensures line { IfOk result (λ x. lines_of bytes.now ≡ x.0.now ∷ lines_of x.1.now) }
    ensures fits { IfOk result (λ x. length x.0.now ≤ 4096) }
    ensures shorter { IfOk result (λ x. length x.1.now < length bytes.now) }
{
    match next_line(bytes) {
        None => Err(12),
        Some((line, rest)) => {
            if line.len() > LONGEST {
                Err(13)
            } else {
                Ok((line, rest))
            }
        }
    }
}

/// The first line, without its LF and a CR before it, and what stands after it.
pub fn next_line(bytes: &[u8]) -> Option<(&[u8], &[u8])>
    ensures none { IfNone result (bytes.now ≡ []) }
    ensures line { IfSome result (λ x. lines_of bytes.now ≡ x.0.now ∷ lines_of x.1.now) }
    ensures shorter { IfSome result (λ x. length x.1.now < length bytes.now) }
{
    let (line, rest) = raw_line(bytes)?;
    Some((without_cr(line), rest))
}

// The first line, without its LF, and what stands after it.
fn raw_line(bytes: &[u8]) -> Option<(&[u8], &[u8])>
    ensures none { IfNone result (bytes.now ≡ []) }
    ensures line { IfSome result (λ x. raw_lines bytes.now ≡ x.0.now ∷ raw_lines x.1.now) }
    ensures shorter { IfSome result (λ x. length x.1.now < length bytes.now) }
{
    if bytes.is_empty() {
        return None;
    }
    match lf_place(bytes) {
        None => Some((bytes, &[])),
        Some(i) => {
            let (line, rest) = bytes.split_at(i);
            Some((line, &rest[1..]))
        }
    }
}

// The place of the first LF.
fn lf_place(bytes: &[u8]) -> Option<usize>
    ensures within { IfSome result (λ i. i < length bytes.now) }
    ensures found { IfSome result (λ i. slice_index bytes.now i ≡ 10) }
    ensures first { IfSome result (λ i. (k : ℕ) → k < i → slice_index bytes.now k ≢ 10) }
    ensures missing { IfNone result
        ((k : ℕ) → k < length bytes.now → slice_index bytes.now k ≢ 10) }
{
    memchr(10, bytes)
}

// The line without a CR at its end.
#[tactic(auto, using(crate::proofs::RawLines::without_cr_at, crate::proofs::RawLines::without_cr_none))]
fn without_cr(line: &[u8]) -> &[u8]
    ensures { result.now ≡ without_cr line.now }
{
    if line.is_empty() {
        return line;
    }
    let last = line.len() - 1;
    if line[last] == 13 {
        &line[..last]
    } else {
        line
    }
}
