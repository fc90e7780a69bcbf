// Texts: cut at a byte, and parts of them.
ghost use Rattle.std.specs.Prelude.{◌≡◌};
ghost use Rattle.script.specs.Text as spec;

// What stands before the first b, and what stands after it: all of the text, and nothing, where there is no b.
pub(crate) fn cut(s: &[u8], b: u8) -> (&[u8], &[u8])
    ensures before { result.0.now ≡ spec.before b s.now }
    ensures after { result.1.now ≡ spec.after b s.now }
{
    match s.iter().position(|x| *x == b) {
        Some(at) => (&s[..at], &s[at + 1..]),
        None => (s, &s[s.len()..]),
    }
}

// What stands from at on, and at most so many bytes of it.
pub fn part(s: &[u8], at: usize, most: usize) -> &[u8]
    ensures { result.now ≡ spec.part at most s.now }
{
    let rest = &s[at.min(s.len())..];
    &rest[..most.min(rest.len())]
}
