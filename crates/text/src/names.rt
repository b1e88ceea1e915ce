// Names: as they are kept in tables, and the rule that their bytes keep. Functions and no methods: docs/PROMISES.md names them so.
ghost use Rattle.std.specs.Prelude.{◌≡◌, [], ◌≤◌, length};
ghost use Rattle.text.specs.Parts.{is_same_text};
ghost use Rattle.text.specs.Name.{name_text, name_of_lem, is_name_byte, name_rule};

// The name that tables are cleared to.
pub fn no_name() -> crate::Name
    ensures { result ≡ name_of_lem [] }
{
    crate::Name {
        bytes: [0u8; crate::NAME_BYTES],
        length: 0,
    }
}

// The name with these bytes.
pub fn name_of(part: &[u8]) -> crate::Name
    requires { length part.now ≤ 24 }
    ensures { result ≡ name_of_lem part.now }
{
    let mut bytes = [0u8; crate::NAME_BYTES];
    let n = crate::put(&mut bytes, part);
    crate::Name {
        bytes,
        length: n as u8,
    }
}

// How many bytes the name has.
pub fn name_length(name: crate::Name) -> usize
    ensures { result ≡ length (name_text name) }
{
    (name.length as usize).min(crate::NAME_BYTES)
}

// The bytes that the name has.
pub(crate) fn name_bytes(name: &crate::Name) -> &[u8]
    ensures { result.now ≡ name_text name.now }
{
    &name.bytes[..name_length(*name)]
}

// Whether the name has these bytes.
pub fn named(name: crate::Name, part: &[u8]) -> bool
    ensures { result ≡ is_same_text (name_text name) part.now }
{
    crate::same(name_bytes(&name), part)
}

// ---- the name rule

// Whether a name may hold this byte.
fn name_byte(b: u8) -> bool
    ensures { result ≡ is_name_byte b }
{
    b.is_ascii_alphanumeric() || b"-+_.".contains(&b)
}

// Whether the bytes keep the name rule.
pub fn is_name(part: &[u8]) -> bool
    ensures { result ≡ name_rule part.now }
{
    (1..=crate::NAME_BYTES).contains(&part.len()) && part.iter().all(|b| name_byte(*b))
}
