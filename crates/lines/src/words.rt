// The fixed words of a line, as a field says them: the type of a message; the controller of a state, and whether it is stable or transient. Each
// asks for its words in the order of the paper, so a table of words and a function over it would be no plainer.
ghost use Rattle.std.specs.Prelude.{◌≡◌, ◌<◌};
ghost use Rattle.text.specs.Parts.{split};
ghost use Rattle.text.specs.Line.{field};
ghost use Rattle.lines.specs.words.Found.{found_kind, found_controller, found_stability};

use papers::records::Record;
use tables::{Controller, Kind, Stability};

// The message type that field i says.
pub(crate) fn kind_at(line: &Record, i: usize) -> Option<Kind>
    requires { i < line.now.fields.count }
    ensures { result ≡ found_kind (field (split 9 line.now.bytes.now) i) }
{
    if line.says(i, text::words::REQ) {
        return Some(Kind::Req);
    }
    if line.says(i, text::words::FWD) {
        return Some(Kind::Fwd);
    }
    if line.says(i, text::words::DATA) {
        return Some(Kind::Data);
    }
    if line.says(i, text::words::CTL) {
        return Some(Kind::Ctl);
    }
    None
}

// ---- a state

// The controller that field i says.
pub fn controller_at(line: &Record, i: usize) -> Option<Controller>
    requires { i < line.now.fields.count }
    ensures { result ≡ found_controller (field (split 9 line.now.bytes.now) i) }
{
    if line.says(i, text::words::CACHE) {
        return Some(Controller::Cache);
    }
    if line.says(i, text::words::DIR) {
        return Some(Controller::Dir);
    }
    None
}

// Whether field i says stable or transient.
pub(crate) fn stability_at(line: &Record, i: usize) -> Option<Stability>
    requires { i < line.now.fields.count }
    ensures { result ≡ found_stability (field (split 9 line.now.bytes.now) i) }
{
    if line.says(i, text::words::STABLE) {
        return Some(Stability::Stable);
    }
    if line.says(i, text::words::TRANSIENT) {
        return Some(Stability::Transient);
    }
    None
}
