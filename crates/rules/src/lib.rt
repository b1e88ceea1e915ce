// The numbers that the paper keeps apart. Message, network and state numbers all start at 0, and one has been read as another before:
// each is a type of its own, and only `index` turns one into the place of a row. It stays a method: by a `From` any call of `into`
// would do that, and not say so. A loop over places writes `Message(i as u8)`: a constructor of its own would say no more, since the
// check proves of each such cast that it loses nothing.
#![tactic(auto)]

ghost use Rattle.std.specs.Prelude.{◌≡◌};

// A message's number, in the order of the file.
#[derive(Clone, Copy, PartialEq, Eq)]
pub struct Message(pub u8);

// The number of a virtual network.
#[derive(Clone, Copy, PartialEq, Eq)]
pub struct Network(pub u8);

// A state's number, in the order of the file, over both controllers.
#[derive(Clone, Copy, PartialEq, Eq)]
pub struct State(pub u8);

// The number of a core access, in the order of the file.
#[derive(Clone, Copy, PartialEq, Eq)]
pub struct Event(pub u8);

impl Message {
    // The message's place in a table that has a row for each message.
    pub fn index(self) -> usize
        ensures { result ≡ self.0 }
    {
        self.0 as usize
    }
}

impl State {
    // The state's place in a table that has a row for each state.
    pub fn index(self) -> usize
        ensures { result ≡ self.0 }
    {
        self.0 as usize
    }
}
