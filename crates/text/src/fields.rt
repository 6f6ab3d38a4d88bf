// The fields of a line: the parts between separators, one more than there are separators.

ghost use Rattle.std.specs.Prelude.{◌≡◌, Some};
ghost use Rattle.std.specs.Iterator.{YieldsFirstRef, item_count};
ghost use Rattle.text.specs.Fields.{split};
ghost use Rattle.text.specs.Reading.{fields_left};

use super::bytes::split_once;

// The fields that are left: those of `rest`, or none.
#[derive(Drop)]
pub struct Fields<'a> {
    rest: Option<&'a [u8]>,
    separator: u8,
}

// The fields of s between the separators c. Not the `split` of slices: of its parts std promises how many there are and that none has a
// separator, but not which bytes they have.
pub fn split(s: &[u8], c: u8) -> Fields<'_>
    ensures { fields_left result ≡ split c s.now }
{
    Fields {
        rest: Some(s),
        separator: c,
    }
}

impl<'a> Iterator for Fields<'a> {
    type Item = &'a [u8];

    ghost next_gives = { YieldsFirstRef fields_left };

    ghost remaining = { item_count fields_left };

    fn next(&mut self) -> Option<&'a [u8]> {
        let s = self.rest?;
        match split_once(s, self.separator) {
            Some((field, rest)) => {
                self.rest = Some(rest);
                Some(field)
            }
            None => {
                self.rest = None;
                Some(s)
            }
        }
    }
}
