// The fields of a line.
ghost use Rattle.std.specs.Prelude.{◌≡◌, ◌≤◌, length};
ghost use Rattle.text.specs.Fields.{fields_of};

// The fields of the line from one place up to another.
pub fn fields_of(text: &[u8], from: usize, to: usize) -> crate::Fields
    requires { (from ≤ to) × (to ≤ length text.now) }
    ensures { result ≡ fields_of text.now from to }
{
    let mut spans = [crate::Span { from: 0, to: 0 }; crate::FIELDS];
    let mut e = crate::find(text, 9, from, to);
    spans[0] = crate::Span { from, to: e };
    for n in 1..crate::FIELDS {
        if to <= e {
            return crate::Fields { count: n, spans };
        }
        let a = e + 1;
        e = crate::find(text, 9, a, to);
        spans[n] = crate::Span { from: a, to: e };
    }
    crate::Fields {
        count: crate::FIELDS,
        spans,
    }
}
