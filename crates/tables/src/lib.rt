// The controller tables of a protocol: the records they are made of, and the tables' value.
#![tactic(auto)]

pub mod conflicts;
pub mod names;

ghost use Rattle.std.specs.Prelude.{◌≡◌, ◌≤◌, length};
ghost use Rattle.tables.specs.Tables.{no_cell_lem, cleared_tables};

use rules::{Event, Message, State};
use text::Name;

// "Most allowed": so many of each, and so many messages sent from one cell. A table has a row for each that there may be.
pub const MESSAGES: usize = 64;

pub const EVENTS: usize = 8;

pub const STATES: usize = 64;

pub const CELLS: usize = 512;

pub const SENT: usize = 8;

// What a message is for. It is stored and has no effect on the relations.
#[derive(Clone, Copy, PartialEq, Eq)]
pub enum Kind {
    Req,
    Fwd,
    Data,
    Ctl,
}

// Whose state a state is.
#[derive(Clone, Copy, PartialEq, Eq)]
pub enum Controller {
    Cache,
    Dir,
}

// A stall may stand in a transient state only.
#[derive(Clone, Copy, PartialEq, Eq)]
pub enum Stability {
    Stable,
    Transient,
}

// What a cell answers to: a message, or on the cache also a core access.
#[derive(Clone, Copy, PartialEq, Eq)]
pub enum Trigger {
    Message(Message),
    Event(Event),
}

// What a cell does: nothing for now, or go to its next state.
#[derive(Clone, Copy, PartialEq, Eq)]
pub enum Outcome {
    Stall,
    Go(State),
}

// One cell of a controller's table. Its line is not stored: it follows from the counts and the cell's place. Memory is fixed, so the messages sent
// are an array with a count.
#[derive(Clone, Copy)]
pub struct Cell {
    pub state: State,
    pub trigger: Trigger,
    pub outcome: Outcome,
    pub sent: [Message; SENT],
    pub sent_count: u8,
}

#[derive(Clone, Copy)]
pub struct MessageRow {
    pub name: Name,
    pub kind: Kind,
}

#[derive(Clone, Copy)]
pub struct EventRow {
    pub name: Name,
}

#[derive(Clone, Copy)]
pub struct StateRow {
    pub name: Name,
    pub controller: Controller,
    pub stability: Stability,
}

// All there is to know of a protocol. What is past a count is as cleared.
// Arrays of full size with a count beside each: the tables are in fixed memory, with no heap. Read them through the slices below.
// No invariant: `TablesOk` and `Kept` are what accepted texts give (theorem `accepted-kept` of reading_laws), and a text is to be written back from any
// value, also from one that no text gives.
#[derive(Clone, Copy)]
pub struct Tables {
    pub messages: [MessageRow; MESSAGES],
    pub events: [EventRow; EVENTS],
    pub states: [StateRow; STATES],
    pub cells: [Cell; CELLS],
    pub message_count: usize,
    pub event_count: usize,
    pub state_count: usize,
    pub cell_count: usize,
}

impl Tables {
    ghost use Rattle.tables.specs.Tables.{messages_of_lem, events_of, states_of, stored_of};

    // The messages that are declared, in the order of the file.
    pub fn messages(&self) -> &[MessageRow]
        requires { self.now.message_count ≤ 64 }
        ensures rows { result.now ≡ messages_of_lem self.now }
        ensures many { length result.now ≡ self.now.message_count }
    {
        &self.messages[..self.message_count]
    }

    // The events that are declared.
    pub fn events(&self) -> &[EventRow]
        requires { self.now.event_count ≤ 8 }
        ensures rows { result.now ≡ events_of self.now }
        ensures many { length result.now ≡ self.now.event_count }
    {
        &self.events[..self.event_count]
    }

    // The states that are declared, of both controllers.
    pub fn states(&self) -> &[StateRow]
        requires { self.now.state_count ≤ 64 }
        ensures rows { result.now ≡ states_of self.now }
        ensures many { length result.now ≡ self.now.state_count }
    {
        &self.states[..self.state_count]
    }

    // The cells that are stored.
    pub fn cells(&self) -> &[Cell]
        requires { self.now.cell_count ≤ 512 }
        ensures rows { result.now ≡ stored_of self.now }
        ensures many { length result.now ≡ self.now.cell_count }
    {
        &self.cells[..self.cell_count]
    }
}

// The cell that tables are cleared to.
pub fn no_cell() -> Cell
    ensures { result ≡ no_cell_lem }
{
    Cell {
        state: State(0),
        trigger: Trigger::Message(Message(0)),
        outcome: Outcome::Stall,
        sent: [Message(0); SENT],
        sent_count: 0,
    }
}

// The tables of a protocol that has nothing yet.
pub fn cleared() -> Tables
    ensures { result ≡ cleared_tables }
{
    let name = text::names::no_name();
    let message = MessageRow {
        name: name,
        kind: Kind::Req,
    };
    let event = EventRow { name: name };
    let state = StateRow {
        name: name,
        controller: Controller::Cache,
        stability: Stability::Stable,
    };
    let cell = no_cell();
    let messages = [message; MESSAGES];
    let events = [event; EVENTS];
    let states = [state; STATES];
    let cells = [cell; CELLS];
    Tables {
        messages: messages,
        events: events,
        states: states,
        cells: cells,
        message_count: 0,
        event_count: 0,
        state_count: 0,
        cell_count: 0,
    }
}
