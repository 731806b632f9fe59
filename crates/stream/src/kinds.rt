// What single numbers of a stream choose among.
use crate::fault::Choice;

// Which change a call makes.
#[derive(Clone, Copy)]
pub enum Call {
    Add,
    Remove,
}

impl TryFrom<u32> for Call {
    type Error = Choice;

    fn try_from(number: u32) -> Result<Call, Choice> {
        match number {
            1 => Ok(Call::Add),
            2 => Ok(Call::Remove),
            _ => Err(Choice::Call),
        }
    }
}

// How the graph of a case is layered, from the outside in.
#[derive(Clone, Copy)]
pub enum Shape {
    List,
    Stored,
    OverlayOfList,
    OverlayOfStored,
    UnionOfListAndStored,
    OverlayOfUnion,
    OverlayOfOverlay,
    UnionOfOverlayAndList,
}

impl TryFrom<u32> for Shape {
    type Error = Choice;

    fn try_from(number: u32) -> Result<Shape, Choice> {
        match number {
            0 => Ok(Shape::List),
            1 => Ok(Shape::Stored),
            2 => Ok(Shape::OverlayOfList),
            3 => Ok(Shape::OverlayOfStored),
            4 => Ok(Shape::UnionOfListAndStored),
            5 => Ok(Shape::OverlayOfUnion),
            6 => Ok(Shape::OverlayOfOverlay),
            7 => Ok(Shape::UnionOfOverlayAndList),
            _ => Err(Choice::Shape),
        }
    }
}

// The kinds of graphs, by their numbers.
#[derive(Clone, Copy)]
pub enum GraphKind {
    List = 0,
    Stored = 1,
    Overlay = 2,
    Union = 3,
}

#[derive(Clone, Copy)]
pub enum PositionKind {
    Variable,
    Term,
}

impl TryFrom<u32> for PositionKind {
    type Error = Choice;

    fn try_from(number: u32) -> Result<PositionKind, Choice> {
        match number {
            0 => Ok(PositionKind::Variable),
            1 => Ok(PositionKind::Term),
            _ => Err(Choice::Position),
        }
    }
}

#[derive(Clone, Copy)]
pub enum EntryKind {
    Triple,
    Values,
    Initial,
    And,
    Union,
    Opt,
    Minus,
    Select,
    Filter,
    Equal,
    Blank,
    Bound,
    Not,
    Both,
    Either,
    Exists,
}

impl TryFrom<u32> for EntryKind {
    type Error = Choice;

    fn try_from(number: u32) -> Result<EntryKind, Choice> {
        match number {
            0 => Ok(EntryKind::Triple),
            1 => Ok(EntryKind::Values),
            2 => Ok(EntryKind::Initial),
            3 => Ok(EntryKind::And),
            4 => Ok(EntryKind::Union),
            5 => Ok(EntryKind::Opt),
            6 => Ok(EntryKind::Minus),
            7 => Ok(EntryKind::Select),
            8 => Ok(EntryKind::Filter),
            9 => Ok(EntryKind::Equal),
            10 => Ok(EntryKind::Blank),
            11 => Ok(EntryKind::Bound),
            12 => Ok(EntryKind::Not),
            13 => Ok(EntryKind::Both),
            14 => Ok(EntryKind::Either),
            15 => Ok(EntryKind::Exists),
            _ => Err(Choice::Entry),
        }
    }
}
