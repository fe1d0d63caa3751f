//! Paths in a JSON text: the steps that lead from the whole value to one within it.
ghost use Rattle.std.specs.Prelude.{◌≡◌};
ghost use Rattle.clr_text_positions.specs.Keys.{key_text};

/// A key of an object of an office text.
#[derive(Clone, Copy, Debug, PartialEq, Eq)]
pub enum Key {
    Format,
    Tables,
    Name,
    Columns,
    Shape,
    Rules,
    Kind,
    Subject,
    Server,
    ServerColumns,
    Known,
    Tip,
    A,
    B,
    D,
    Table,
    Where,
    Live,
    T,
    K,
    V,
    S,
    Gone,
    Workspaces,
    Parent,
    Base,
    Rows,
    Marks,
    Child,
    Savepoint,
    Kept,
}

impl Key {
    /// Returns the key as it is written.
    pub fn as_str(self) -> &'static str
        ensures { result.now ≡ key_text self }
    {
        match self {
            Key::Format => "format",
            Key::Tables => "tables",
            Key::Name => "name",
            Key::Columns => "columns",
            Key::Shape => "shape",
            Key::Rules => "rules",
            Key::Kind => "kind",
            Key::Subject => "subject",
            Key::Server => "server",
            Key::ServerColumns => "server_columns",
            Key::Known => "known",
            Key::Tip => "tip",
            Key::A => "a",
            Key::B => "b",
            Key::D => "d",
            Key::Table => "table",
            Key::Where => "where",
            Key::Live => "live",
            Key::T => "t",
            Key::K => "k",
            Key::V => "v",
            Key::S => "s",
            Key::Gone => "gone",
            Key::Workspaces => "workspaces",
            Key::Parent => "parent",
            Key::Base => "base",
            Key::Rows => "rows",
            Key::Marks => "marks",
            Key::Child => "child",
            Key::Savepoint => "savepoint",
            Key::Kept => "kept",
        }
    }
}

/// A step of a path: to the value at a key of an object, or to an item of a list, counted from 0.
#[derive(Clone, Copy, Debug, PartialEq, Eq)]
pub enum PathStep {
    Key(Key),
    At(usize),
}
