// The calls that a line can make, by their names: `set-..` sets, and a bare name reads.
ghost use Rattle.std.specs.Prelude.{◌≡◌};
ghost use Rattle.test_reading_lines.specs.Calls.{setting_of, query_of, field_of, lone_call, call_of, limits_of};

#[derive(Clone, Copy)]
pub enum Setting {
    Vl,
    VlImmediate,
    Mvl,
    Cfg,
    Entry,
    Predicate,
    X,
    Pc,
    State,
}

#[derive(Clone, Copy)]
pub enum Query {
    Vl,
    Mvl,
    Cfg,
    Entry,
    Predicate,
    X,
    Pc,
    State,
}

// A field that is written past the calls, so that a machine can be put out of shape.
#[derive(Clone, Copy)]
pub enum Field {
    Mvl,
    Vl,
    Cfg,
    Source,
    Destination,
    X0,
    Predicate,
}

#[derive(Clone, Copy)]
pub enum Call {
    Set(Setting),
    Read(Query),
    Run,
    Step,
    Write(Field),
    // The memory's length, and 8 bytes of it, put and read.
    Memory,
    Put,
    Bytes,
}

// The largest number that each argument of a call can be, where it takes one.
#[derive(Clone, Copy)]
pub struct Limits(pub Option<u64>, pub Option<u64>);

const MAX16: u64 = u16::MAX as u64;

const MAX32: u64 = u32::MAX as u64;

impl Setting {
    // By name, an Option and no TryFrom, as in each `of` below: there is nothing to say of another name.
    fn of(name: &[u8]) -> Option<Setting>
        ensures { result ≡ setting_of name.now }
    {
        match name {
            b"set-vl" => Some(Setting::Vl),
            b"set-vl-immediate" => Some(Setting::VlImmediate),
            b"set-mvl" => Some(Setting::Mvl),
            b"set-cfg" => Some(Setting::Cfg),
            b"set-entry" => Some(Setting::Entry),
            b"set-predicate" => Some(Setting::Predicate),
            b"set-x" => Some(Setting::X),
            b"set-pc" => Some(Setting::Pc),
            b"set-state" => Some(Setting::State),
            _ => None,
        }
    }
}

impl Query {
    fn of(name: &[u8]) -> Option<Query>
        ensures { result ≡ query_of name.now }
    {
        match name {
            b"vl" => Some(Query::Vl),
            b"mvl" => Some(Query::Mvl),
            b"cfg" => Some(Query::Cfg),
            b"entry" => Some(Query::Entry),
            b"predicate" => Some(Query::Predicate),
            b"x" => Some(Query::X),
            b"pc" => Some(Query::Pc),
            b"state" => Some(Query::State),
            _ => None,
        }
    }
}

impl Field {
    fn of(name: &[u8]) -> Option<Field>
        ensures { result ≡ field_of name.now }
    {
        match name {
            b"write-mvl" => Some(Field::Mvl),
            b"write-vl" => Some(Field::Vl),
            b"write-cfg" => Some(Field::Cfg),
            b"write-source" => Some(Field::Source),
            b"write-destination" => Some(Field::Destination),
            b"write-x0" => Some(Field::X0),
            b"write-predicate" => Some(Field::Predicate),
            _ => None,
        }
    }
}

// The calls that stand alone.
fn lone_call(name: &[u8]) -> Option<Call>
    ensures { result ≡ lone_call name.now }
{
    match name {
        b"run" => Some(Call::Run),
        b"step" => Some(Call::Step),
        b"memory" => Some(Call::Memory),
        b"put" => Some(Call::Put),
        b"bytes" => Some(Call::Bytes),
        _ => None,
    }
}

impl Call {
    pub(crate) fn of(name: &[u8]) -> Option<Call>
        ensures { result ≡ call_of name.now }
    {
        if let Some(setting) = Setting::of(name) {
            return Some(Call::Set(setting));
        }
        if let Some(query) = Query::of(name) {
            return Some(Call::Read(query));
        }
        if let Some(field) = Field::of(name) {
            return Some(Call::Write(field));
        }
        lone_call(name)
    }

    #[tactic(auto, unfolding(crate::specs::Calls::limits_of))]
    pub(crate) fn limits(self) -> Limits
        ensures { result ≡ limits_of self }
    {
        match self {
            Call::Set(Setting::Vl | Setting::Pc) => Limits(Some(u64::MAX), None),
            Call::Set(Setting::Entry | Setting::Predicate) => Limits(Some(MAX32), Some(MAX16)),
            Call::Set(Setting::X) => Limits(Some(MAX32), Some(u64::MAX)),
            Call::Set(_) => Limits(Some(MAX32), None),
            Call::Read(Query::Entry | Query::Predicate | Query::X) => Limits(Some(MAX32), None),
            Call::Read(_) => Limits(None, None),
            Call::Run => Limits(Some(MAX32), Some(MAX16)),
            Call::Step => Limits(Some(MAX32), None),
            Call::Write(Field::X0) => Limits(Some(u64::MAX), None),
            Call::Write(Field::Predicate) => Limits(Some(15), Some(MAX16)),
            Call::Write(_) => Limits(Some(MAX32), None),
            Call::Memory => Limits(Some(128), None),
            Call::Put => Limits(Some(127), Some(u64::MAX)),
            Call::Bytes => Limits(Some(127), None),
        }
    }
}
