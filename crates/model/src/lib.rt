// The types of the simulated cluster. What document 01 rules out by its bounds is, where a type can say it, not representable;
// the rest is `well_formed` in specs/WellFormed.antt.
#![tactic(auto)]

ghost use Rattle.std.specs.Prelude.{◌≡◌, ◌||◌, ℕ, Ok, Err, eqb};
ghost use Rattle.model.specs.Lists.{pick};
ghost use Rattle.model.specs.declared.Refusal.TheVariants.{ModeRange};
ghost use Rattle.model.specs.States.{mode_number, mode_of};
ghost use Rattle.model.specs.Refusals.{refusal_number, number};
ghost use Rattle.model.specs.Listing.{kind_of};

// The sizes of the cluster: specs/States.antt has the same numbers under the same names.
pub const LOCKS: usize = 8;

pub const MACHINES: usize = 4;

pub const TASKS: usize = 4;

pub const CLIENTS: usize = MACHINES * TASKS;

pub const QUEUE_CAPACITY: usize = 16;

pub const WIRE_CAPACITY: usize = 49;

// A cluster prefers readers, 0, or writers, 1.
pub const PREFERENCES: u8 = 2;

// The steps that a drain may take (specs/Drain.antt).
pub const ALLOWANCE: u16 = 32768;

// The source's lid, mid and tid: no place that wants one takes another.
#[derive(Clone, Copy, Drop, PartialEq, Eq)]
pub struct LockId(pub u8);

#[derive(Clone, Copy, Drop, PartialEq, Eq)]
pub struct MachineId(pub u8);

#[derive(Clone, Copy, Drop, PartialEq, Eq)]
pub struct TaskId(pub u8);

// A machine and a task: 4 × machine + task.
#[derive(Clone, Copy, Drop, PartialEq, Eq)]
pub struct ClientId(pub u8);

#[derive(Clone, Copy, Drop, PartialEq, Eq)]
pub enum Mode {
    Exclusive,
    Shared,
}

// A decider's mode and the machine of the agent, which is nil exactly when the lock is free.
#[derive(Clone, Copy, Drop, PartialEq, Eq)]
pub enum Owner {
    Free,
    Owned(Mode, MachineId),
}

// writer: the source's ww, an exclusive request is known to wait.
#[derive(Clone, Copy, Drop, PartialEq, Eq)]
pub struct Decider {
    pub owner: Owner,
    pub incarnation: u8,
    pub writer: bool,
}

#[derive(Clone, Copy, Drop, PartialEq, Eq)]
pub struct Waiter {
    pub client: ClientId,
    pub mode: Mode,
}

// The first len slots count, the others are blank; so too of a wire.
#[derive(Clone, Copy, Drop, PartialEq, Eq)]
pub struct Queue {
    pub slots: [Waiter; QUEUE_CAPACITY],
    pub len: u8,
}

#[derive(Clone, Copy, Drop, PartialEq, Eq)]
pub struct Agent {
    pub mode: Mode,
    pub holders: [bool; CLIENTS],
    pub queue: Queue,
    pub incarnation: u8,
}

// An agent or none, on a machine and inside a packet.
#[derive(Clone, Copy, Drop, PartialEq, Eq)]
pub struct AgentSlot {
    pub present: bool,
    pub agent: Agent,
}

#[derive(Clone, Copy, Drop, PartialEq, Eq)]
pub enum Address {
    Decider,
    Machine(MachineId),
}

// Free stands first: the machine's default value is then a blank packet's.
#[derive(Clone, Copy, Drop, PartialEq, Eq)]
pub enum Message {
    Free,
    Acquire {
        client: ClientId,
        mode: Mode,
        granted: bool,
    },
    Grant {
        client: ClientId,
        mode: Mode,
    },
    Release {
        client: ClientId,
    },
}

// Document 01's 'turned back' is rejected: the decider refused the packet. circled: how often a machine has sent it back, or 255 where it was more often.
#[derive(Clone, Copy, Drop, PartialEq, Eq)]
pub struct Packet {
    pub message: Message,
    pub to: Address,
    pub rejected: bool,
    pub circled: u8,
    pub carried: AgentSlot,
}

#[derive(Clone, Copy, Drop, PartialEq, Eq)]
pub struct Wire {
    pub slots: [Packet; WIRE_CAPACITY],
    pub len: u8,
}

#[derive(Clone, Copy, Drop, PartialEq, Eq)]
pub enum Status {
    Idle,
    Waiting(Mode),
    Holding(Mode),
}

// lost: it waits, and its GRANT was lost.
#[derive(Clone, Copy, Drop, PartialEq, Eq)]
pub struct ClientState {
    pub status: Status,
    pub lost: bool,
}

// What a step looks at: the cluster's preference; and what it may write of a lock's record: the decider, one machine's agent or none, one client's status
// and its note.
#[derive(Clone, Copy, Drop, PartialEq, Eq)]
pub struct Site {
    pub preference: u8,
    pub decider: Decider,
    pub slot: AgentSlot,
    pub status: Status,
    pub lost: bool,
}

// A lock's record in document 01. The wire, nine tenths of it, comes first: so the compiler makes a new state where it is to be, and saves a copy.
#[derive(Clone, Copy, Drop, PartialEq, Eq)]
pub struct LockState {
    pub wire: Wire,
    pub decider: Decider,
    pub agents: [AgentSlot; MACHINES],
    pub clients: [ClientState; CLIENTS],
}

// The bench in document 01. Its preference, 0 for readers and 1 for writers, is as given when it was made.
#[derive(Clone, Copy, Drop, PartialEq, Eq)]
pub struct Cluster {
    pub preference: u8,
    pub locks: [LockState; LOCKS],
}

// A call as data. Its numbers are as given, in range or not.
#[derive(Clone, Copy, Drop, PartialEq, Eq)]
pub enum Call {
    Acquire {
        lock: LockId,
        machine: MachineId,
        task: TaskId,
        mode: u8,
    },
    Release {
        lock: LockId,
        machine: MachineId,
        task: TaskId,
    },
    Deliver {
        lock: LockId,
        index: u8,
    },
    Lose {
        lock: LockId,
        index: u8,
    },
    GiveUp {
        lock: LockId,
        machine: MachineId,
        task: TaskId,
    },
}

// One for each row of the table of refusals.
#[derive(Clone, Copy, Drop, PartialEq, Eq)]
pub enum Refusal {
    Malformed,
    LockRange,
    MachineRange,
    TaskRange,
    ModeRange,
    NotIdle,
    StillNamed,
    NotHolding,
    IndexRange,
    CannotPlace,
    WireFull,
    BadRecord,
    TranscriptLength,
    NotQuiescent,
    NotWaiting,
    PreferenceRange,
    CannotGiveUp,
    CannotLose,
}

// What a call is answered: accepted, or a refusal.
pub type Answer = Result<(), Refusal>;

// Why a client waits: its ACQUIRE, its GRANT or its rejected GRANT is on the wire, at an index; or it stands in the queue of the agent on a machine, or of
// the one carried by the packet at an index, with so many ahead; or its GRANT was lost.
#[derive(Clone, Copy, Drop, PartialEq, Eq)]
pub enum Reason {
    Requested { index: u8 },
    Granted { index: u8 },
    Rejected { index: u8 },
    Queued { machine: MachineId, ahead: u8 },
    Carried { index: u8, ahead: u8 },
    GrantLost,
}

// What the question for the reason is answered.
pub type ReasonAnswer = Result<Reason, Refusal>;

// What a machine made of an ACQUIRE or RELEASE that was delivered to it: it has no agent; it has one that neither lists nor queues the client of the
// RELEASE; or it took it. A step that was no such delivery, or was refused, tells none.
#[derive(Clone, Copy, Drop, PartialEq, Eq)]
pub enum Handling {
    NoAgent,
    NotHolder,
    Taken,
}

// What a step on one lock gives.
#[derive(Clone, Copy, Drop, PartialEq, Eq)]
pub struct Stepped {
    pub answer: Answer,
    pub handling: Option<Handling>,
    pub state: LockState,
}

// What a call gives.
#[derive(Clone, Copy, Drop, PartialEq, Eq)]
pub struct Outcome {
    pub answer: Answer,
    pub handling: Option<Handling>,
    pub cluster: Cluster,
}

// What a drain gives: the steps taken, 0 where it is refused, and the last handling that one of them gave.
#[derive(Clone, Copy, Drop, PartialEq, Eq)]
pub struct Drained {
    pub answer: Answer,
    pub count: u16,
    pub handling: Option<Handling>,
    pub cluster: Cluster,
}

// What stands at a position of a transcript.
#[derive(Clone, Copy, Drop, PartialEq, Eq)]
pub enum Reading {
    Record { call: Call, next: usize },
    Bad,
    End,
}

// What the run of a transcript gives: the count of its records, the number of the bad one, or 0 where it is too long; and the last handling that a record's
// step gave.
#[derive(Clone, Copy, Drop, PartialEq, Eq)]
pub struct Replayed {
    pub answer: Answer,
    pub records: u16,
    pub handling: Option<Handling>,
    pub cluster: Cluster,
}

impl Call {
    // The number of its record's kind.
    pub fn kind(self) -> u8
        ensures { result ≡ kind_of self }
    {
        match self {
            Call::Acquire { .. } => 1,
            Call::Release { .. } => 2,
            Call::Deliver { .. } => 3,
            Call::Lose { .. } => 6,
            Call::GiveUp { .. } => 7,
        }
    }
}

impl Mode {
    // The source's number.
    pub fn number(self) -> u8
        ensures { result ≡ mode_number self }
    {
        match self {
            Mode::Exclusive => 2,
            Mode::Shared => 3,
        }
    }
}

impl TryFrom<u8> for Mode {
    type Error = Refusal;

    // A request is exclusive or shared.
    ghost try_from_gives = { λ n r. r ≡ pick (eqb n 2 || eqb n 3) (Ok (mode_of n)) (Err ModeRange) };

    fn try_from(number: u8) -> Result<Mode, Refusal> {
        match number {
            2 => Ok(Mode::Exclusive),
            3 => Ok(Mode::Shared),
            _ => Err(Refusal::ModeRange),
        }
    }
}

// What has one of the papers' numbers.
pub trait Numbered {
    ghost number_of: { Self → ℕ };

    fn number(self) -> u8
        ensures { result ≡ number_of self };
}

impl Numbered for Refusal {
    ghost number_of = { refusal_number };

    fn number(self) -> u8 {
        match self {
            Refusal::Malformed => 11,
            Refusal::LockRange => 1,
            Refusal::MachineRange => 2,
            Refusal::TaskRange => 3,
            Refusal::ModeRange => 4,
            Refusal::NotIdle => 5,
            Refusal::StillNamed => 6,
            Refusal::NotHolding => 7,
            Refusal::IndexRange => 8,
            Refusal::CannotPlace => 9,
            Refusal::WireFull => 10,
            Refusal::BadRecord => 12,
            Refusal::TranscriptLength => 13,
            Refusal::NotQuiescent => 14,
            Refusal::NotWaiting => 15,
            Refusal::PreferenceRange => 16,
            Refusal::CannotGiveUp => 17,
            Refusal::CannotLose => 18,
        }
    }
}

// 0 is the number of what was accepted or given, and of nothing else.
impl<T: Copy> Numbered for Result<T, Refusal> {
    ghost number_of = { number };

    fn number(self) -> u8 {
        match self {
            Ok(_) => 0,
            Err(refusal) => refusal.number(),
        }
    }
}
