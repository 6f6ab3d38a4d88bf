// Bindings of a sequence, and the words that hold them.

ghost use Rattle.std.specs.Prelude.{◌≡◌, ◌<◌, ◌≤◌, ◌+◌, ◌*◌, ◌∷◌, [], length};
ghost use Rattle.std.specs.Iterator.{YieldsFirst, item_count};
ghost use Rattle.std.proofs.lemmas.List.Edits.{sets};
ghost use Rattle.obligations.specs.Limits.{positions};
ghost use Rattle.obligations.specs.Sequence.{bindings, words};

// An activity with its input set and its output set. Calls are lent a sequence as words, as 01 names it.
#[derive(Clone, Copy, PartialEq, Eq, Debug)]
pub struct Binding {
    pub activity: u32,
    pub input: u32,
    pub output: u32,
}

// Writes a binding's three words at a position, counted from 0.
pub fn write_binding(out: &mut [u32], position: usize, binding: Binding)
    requires is_position { position < positions }
    requires room { 3 * position + 3 ≤ length out.old }
    ensures { out.new ≡ sets out.old (3 * position) (words (binding ∷ [])) }
{
    let first = 3 * position;
    out[first..first + 3].copy_from_slice(&[binding.activity, binding.input, binding.output]);
}

// The bindings that words hold, three words a position. One or two words left over hold none.
pub fn bindings(words: &[u32]) -> BindingIter<'_>
    ensures { result.rest.now ≡ words.now }
{
    BindingIter { rest: words }
}

// A walk over the bindings that words hold: the words that are left.
#[derive(Clone, Copy)]
pub struct BindingIter<'a> {
    rest: &'a [u32],
}

impl<'a> Iterator for BindingIter<'a> {
    type Item = Binding;

    ghost next_gives = { YieldsFirst (λ s. bindings s.rest.now) };

    ghost remaining = { item_count (λ s. bindings s.rest.now) };

    fn next(&mut self) -> Option<Binding> {
        let [activity, input, output, rest @ ..] = self.rest else {
            return None;
        };
        self.rest = rest;
        Some(Binding {
            activity: *activity,
            input: *input,
            output: *output,
        })
    }
}
