// What is written behind what stands there already: a text, a number or a name, at a place of the output. Each is lent the rest of it.
// Output and place are no struct: these functions are promised by name, a clause each (PROMISES.md).
ghost use Rattle.std.specs.Prelude.{◌+◌, ◌≤◌, length};
ghost use Rattle.text.specs.Name.{name_text};
ghost use Rattle.text.specs.Written.{decimal, Pasted, Wrote};

// n in decimal at the front of out.
fn put_number(out: &mut [u8], n: u32) -> usize
    requires { length (decimal n) ≤ length out.old }
    ensures { Wrote (decimal n) out.old out.new result }
{
    if n < 10 {
        out[0] = n as u8 + b'0';
        return 1;
    }
    let at = put_number(out, n / 10);
    out[at] = (n % 10) as u8 + b'0';
    at + 1
}

// The text at a place of out.
pub fn more(out: &mut [u8], at: usize, text: &[u8]) -> usize
    requires { at + length text.now ≤ length out.old }
    ensures { Pasted text.now at out.old out.new result }
{
    at + crate::put(&mut out[at..], text)
}

// n in decimal at a place of out.
pub fn more_number(out: &mut [u8], at: usize, n: u32) -> usize
    requires { at + length (decimal n) ≤ length out.old }
    ensures { Pasted (decimal n) at out.old out.new result }
{
    at + put_number(&mut out[at..], n)
}

// The bytes of a name at a place of out.
pub fn more_name(out: &mut [u8], at: usize, name: crate::Name) -> usize
    requires { at + length (name_text name) ≤ length out.old }
    ensures { Pasted (name_text name) at out.old out.new result }
{
    more(out, at, crate::names::name_bytes(&name))
}
