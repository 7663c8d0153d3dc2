//! The tables of a description, and the keys that each has.
ghost use Rattle.std.specs.Prelude.{◌≡◌};
ghost use Rattle.com_text.specs.Text.{IsText};
ghost use Rattle.com_net.specs.Keys.{key_text, keys_of};

/// A kind of table.
#[derive(Clone, Copy, Debug, PartialEq, Eq)]
pub enum Section {
    /// The document itself.
    Top,
    Terminal,
    /// A queue, with its level, from 1 at the top.
    Queue(u32),
    Unit,
}

/// A key of a table.
#[derive(Clone, Copy, Debug, PartialEq, Eq)]
pub enum Key {
    Version,
    Terminals,
    Queues,
    Units,
    Name,
    Password,
    Input,
    Framing,
    Route,
    InputEnabled,
    OutputEnabled,
    Children,
    Choose,
    Enabled,
    Source,
    Schedule,
}

const TOP_KEYS: [Key; 4] = [Key::Version, Key::Terminals, Key::Queues, Key::Units];

const TERMINAL_KEYS: [Key; 7] = [
    Key::Name,
    Key::Password,
    Key::Input,
    Key::Framing,
    Key::Route,
    Key::InputEnabled,
    Key::OutputEnabled,
];

const TOP_QUEUE_KEYS: [Key; 5] = [
    Key::Name,
    Key::Password,
    Key::Children,
    Key::Choose,
    Key::Enabled,
];

const SUB_QUEUE_KEYS: [Key; 4] = [Key::Name, Key::Children, Key::Choose, Key::Enabled];

const UNIT_KEYS: [Key; 3] = [Key::Name, Key::Source, Key::Schedule];

/// Returns the keys that a table may have, in order.
pub fn keys_of(section: Section) -> &'static [Key]
    ensures { result.now ≡ keys_of section }
{
    match section {
        Section::Top => &TOP_KEYS,
        Section::Terminal => &TERMINAL_KEYS,
        Section::Queue(level) => if level == 1 {
            &TOP_QUEUE_KEYS
        } else {
            &SUB_QUEUE_KEYS
        },
        Section::Unit => &UNIT_KEYS,
    }
}

/// Returns a key as it is written.
pub fn key_text(key: Key) -> &'static str
    ensures key { result.now ≡ key_text key }
    ensures text { IsText result.now }
{
    match key {
        Key::Version => "version",
        Key::Terminals => "terminal",
        Key::Queues => "queue",
        Key::Units => "unit",
        Key::Name => "name",
        Key::Password => "password",
        Key::Input => "input",
        Key::Framing => "framing",
        Key::Route => "route",
        Key::InputEnabled => "input-enabled",
        Key::OutputEnabled => "output-enabled",
        Key::Children => "sub",
        Key::Choose => "choose",
        Key::Enabled => "enabled",
        Key::Source => "source",
        Key::Schedule => "schedule",
    }
}
