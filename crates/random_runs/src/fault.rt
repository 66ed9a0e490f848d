// docs/random-runs.md, 'Hand-made states': what a fault is and where.

// The page's table, from 1 on. The number v of a fault that takes one is below 239, so that no sum with it wraps.
#[derive(Clone, Copy, Drop)]
pub enum Fault {
    UnknownWaiter(u8),
    DoubleWaiter,
    LongQueue(u8),
    UnknownAddress(u8),
    UnknownClient(u8),
    Rejection,
    Carrying,
    Direction,
    NotBlank,
    UnknownOwner(u8),
    LongWire(u8),
    StrayPacket,
    Preference(u8),
    Writer,
    Count(u8),
    Note(u8),
}

impl Fault {
    // The page's f and v; f = 0 is no fault.
    pub fn numbered(f: u8, v: u8) -> Option<Fault> {
        match f {
            1 => Some(Fault::UnknownWaiter(v)),
            2 => Some(Fault::DoubleWaiter),
            3 => Some(Fault::LongQueue(v)),
            4 => Some(Fault::UnknownAddress(v)),
            5 => Some(Fault::UnknownClient(v)),
            6 => Some(Fault::Rejection),
            7 => Some(Fault::Carrying),
            8 => Some(Fault::Direction),
            9 => Some(Fault::NotBlank),
            10 => Some(Fault::UnknownOwner(v)),
            11 => Some(Fault::LongWire(v)),
            12 => Some(Fault::StrayPacket),
            13 => Some(Fault::Preference(v)),
            14 => Some(Fault::Writer),
            15 => Some(Fault::Count(v)),
            16 => Some(Fault::Note(v)),
            _ => None,
        }
    }
}

// The fault of a lock, if it has one, and the page's t: the slot where it is, unless it is in the lock.
#[derive(Clone, Copy, Drop)]
pub struct Placed {
    pub fault: Option<Fault>,
    pub slot: u8,
}

impl Placed {
    pub fn at(self, slot: u8) -> Option<Fault> {
        if slot == self.slot { self.fault } else { None }
    }
}
