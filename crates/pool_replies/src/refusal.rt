// Why a command is refused, and the line that says so.
ghost use Rattle.std.specs.Prelude.{◌≡◌, ◌++◌, IsTrue, OnOk};
ghost use Rattle.pool_replies.specs.Refusals as texts;

use crate::writing::{append_amount, append_amount_line, append_name_line};
use ad_lexer::LexKind;
use ad_parser::ParseFault;
use claim_table::JobState;
use pool_text::{OutOfMemory, Text};

/// What there is no room for.
#[derive(Clone, Copy)]
pub enum Room {
    Ads,
    AdText,
    Jobs,
    JobText,
    Users,
}

/// Why a command is refused.
#[derive(Drop)]
pub enum Refusal {
    /// The line isn't read: 1 too long, 2 an unknown command, 3 wrong words, 4 a block not ended, 5 a block too long.
    Line(u8),
    /// The text of an ad or of an expression has this fault.
    AdText(ParseFault),
    /// The clock would go back.
    ClockBack,
    /// No ad, job or mailbox has the name.
    UnknownName,
    /// A job has the name already.
    NameInUse,
    /// There is no room.
    Full(Room),
    /// The job is in this state: idle, or claimed where a claim is asked for.
    WrongState(JobState),
    /// The named resource of an offer is no longer what was offered.
    Stale(Text),
    /// The ports of a gang are no ports.
    BadPorts,
    /// The job is a gang, which isn't explained.
    GangJob,
}

/// Appends the line of a refusal.
#[tactic(auto, unfolding(crate::specs::Refusals::refusal_text, crate::specs::Refusals::is_printable_refusal))]
pub(crate) fn append_refusal(out: &mut Text, refusal: &Refusal) -> Result<(), OutOfMemory>
    requires { IsTrue (texts.is_printable_refusal refusal.now) }
    ensures { OnOk result (out.new ≡ out.old ++ texts.refusal_text refusal.now) }
{
    match refusal {
        Refusal::Line(number) => append_line_refusal(out, *number),
        Refusal::AdText(fault) => append_fault(out, *fault),
        Refusal::ClockBack => out.append(b"refused 7 clock goes back\n"),
        Refusal::UnknownName => out.append(b"refused 8 name not known\n"),
        Refusal::NameInUse => out.append(b"refused 9 name in use\n"),
        Refusal::Full(room) => append_room(out, *room),
        Refusal::WrongState(state) => append_state(out, *state),
        Refusal::Stale(name) => append_name_line(out, b"refused 12 stale ", name.bytes()),
        Refusal::BadPorts => out.append(b"refused 13 bad ports\n"),
        Refusal::GangJob => out.append(b"refused 15 job is a gang\n"),
    }
}

#[tactic(auto, unfolding(crate::specs::Refusals::line_refusal))]
fn append_line_refusal(out: &mut Text, number: u8) -> Result<(), OutOfMemory>
    ensures { OnOk result (out.new ≡ out.old ++ texts.line_refusal number) }
{
    match number {
        1 => out.append(b"refused 1 line too long\n"),
        2 => out.append(b"refused 2 unknown command\n"),
        3 => out.append(b"refused 3 wrong words\n"),
        4 => out.append(b"refused 4 block not ended\n"),
        _ => out.append(b"refused 5 block too long\n"),
    }
}

fn append_room(out: &mut Text, room: Room) -> Result<(), OutOfMemory>
    ensures { OnOk result (out.new ≡ out.old ++ texts.room_text room) }
{
    match room {
        Room::Ads => out.append(b"refused 10 too many ads\n"),
        Room::AdText => out.append(b"refused 10 too much ad text\n"),
        Room::Jobs => out.append(b"refused 10 too many jobs\n"),
        Room::JobText => out.append(b"refused 10 too much job text\n"),
        Room::Users => out.append(b"refused 10 too many users\n"),
    }
}

fn append_state(out: &mut Text, state: JobState) -> Result<(), OutOfMemory>
    ensures { OnOk result (out.new ≡ out.old ++ texts.state_text state) }
{
    match state {
        JobState::Idle => out.append(b"refused 11 job is idle\n"),
        JobState::Matched => Ok(()),
        JobState::Claimed => out.append(b"refused 11 job is claimed\n"),
    }
}

fn append_fault(out: &mut Text, fault: ParseFault) -> Result<(), OutOfMemory>
    ensures { OnOk result (out.new ≡ out.old ++ texts.fault_text fault) }
{
    match fault {
        ParseFault::Lex { kind, place } => append_lexical(out, kind, place),
        ParseFault::Nesting => out.append(b"refused 6 nesting\n"),
        ParseFault::Grammar => out.append(b"refused 6 grammar\n"),
        ParseFault::Depth => out.append(b"refused 6 depth\n"),
        ParseFault::Frames => out.append(b"refused 6 frames\n"),
        ParseFault::Attributes => out.append(b"refused 6 attributes\n"),
        ParseFault::OutOfMemory => Ok(()),
    }
}

fn append_lexical(out: &mut Text, kind: LexKind, place: u32) -> Result<(), OutOfMemory>
    ensures { OnOk result (out.new ≡ out.old ++ texts.lexical_text kind place) }
{
    append_amount(out, b"refused 6 lexical ", u64::from(kind.number()))?;
    append_amount_line(out, b" at ", u64::from(place))
}
