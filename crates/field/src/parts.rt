// What a field is made of: rows, links, losses and planned acts.

// What a sensor sends: a hop count and a number.
#[derive(Clone, Copy, PartialEq, Eq, Debug)]
pub struct Message<Number> {
    pub hop: u8,
    pub number: Number,
}

// What a sensor knows: its timer, the number that it holds, the hop count of a message that it is
// to forward, and the message that it sends in the open instant.
#[derive(Clone, Copy, PartialEq, Eq, Debug)]
pub struct Row<Number> {
    pub timer: u16,
    pub held: Number,
    pub mark: Option<u8>,
    pub outgoing: Option<Message<Number>>,
}

// One sensor hears another. The label is a percentage, and 0 stands for 100.
#[derive(Clone, Copy, PartialEq, Eq, Debug)]
pub struct Link {
    pub from: u8,
    pub to: u8,
    pub label: u8,
}

// A copy that is lost at an instant.
#[derive(Clone, Copy, PartialEq, Eq, Debug)]
pub struct Loss {
    pub from: u8,
    pub to: u8,
    pub instant: u32,
}

// What is planned for a run: instants to play, or a sensor's row overwritten.
#[derive(Clone, Copy, PartialEq, Eq, Debug)]
pub enum Act<Number> {
    Play(u32),
    Damage(Damage<Number>),
}

#[derive(Clone, Copy, PartialEq, Eq, Debug)]
pub struct Damage<Number> {
    pub sensor: u8,
    pub timer: u16,
    pub mark: Option<u8>,
    pub held: Number,
}
