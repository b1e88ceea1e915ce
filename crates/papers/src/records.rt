// A line of a paper as its fields.
ghost use Rattle.std.specs.Prelude.{◌≡◌, ◌<◌};
ghost use Rattle.text.specs.Parts.{split};
ghost use Rattle.text.specs.Line.{field, says};
ghost use Rattle.papers.specs.records.FieldsAre.{FieldsAre};

use text::Fields;

// A line, and where its fields stand. Its number in the text goes beside it, where a refusal is told: the fields do not hang on it.
#[derive(Clone, Copy)]
pub struct Record<'a> {
    pub bytes: &'a [u8],
    pub fields: Fields,
    pub ghost are: { FieldsAre bytes.now fields },
}

impl<'a> Record<'a> {
    // The line as a record.
    pub fn of(bytes: &'a [u8]) -> Record<'a>
        ensures { result.bytes.now ≡ bytes.now }
    {
        Record {
            bytes,
            fields: text::line_fields::fields_of(bytes, 0, bytes.len()),
        }
    }

    // How many fields it has, as far as they are looked at.
    pub fn count(&self) -> usize
        ensures { result ≡ self.now.fields.count }
    {
        self.fields.count
    }

    // Field i, counted from 0.
    pub fn field(&self, i: usize) -> &'a [u8]
        requires { i < self.now.fields.count }
        ensures { result.now ≡ field (split 9 self.now.bytes.now) i }
    {
        let span = self.fields.spans[i];
        &self.bytes[span.from..span.to]
    }

    // Whether field i is this word.
    pub fn says(&self, i: usize, word: &[u8]) -> bool
        requires { i < self.now.fields.count }
        ensures { result ≡ says (split 9 self.now.bytes.now) i word.now }
    {
        text::same(self.field(i), word)
    }

    // Whether it is a record of this word: every line has a first field.
    pub fn is(&self, word: &[u8]) -> bool
        ensures { result ≡ says (split 9 self.now.bytes.now) 0 word.now }
    {
        self.says(0, word)
    }
}
