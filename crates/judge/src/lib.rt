// The checks of a frame, in the order of the refusals: each answers an enum, and the first that does not pass decides.
#![tactic(auto)]

ghost use Rattle.std.specs.Prelude.{◌≡◌, true, [], ◌≤◌, length};
ghost use Rattle.record.specs.InPlace.{Sound, Shows};
ghost use Rattle.command.specs.declared.Need.TheVariants.{Unlocked, Code};
ghost use Rattle.command.specs.Entries.{need_in, is_built, is_tidy, unpacked};
ghost use Rattle.command.specs.Judge.{access_of};
ghost use Rattle.judge.specs.Checks.{asks, Known, judged_by};

use command::{Access, Counted, Numbered, Refusal};
use flags::has_flag;
use numbers::word_at;
use record::Flag;
use record::places::{AT_CODE, AT_TRIES};
use table::entries::{CLOSED, CODE, LOCK, OPENED};
use table::{check_count, check_number};

// The code is compared only with configuration mode closed and a try left.
fn code_access(rec: &[u8], p: &[u8]) -> Access
    requires sound { Sound rec.now }
    requires in_bounds { 4 ≤ length p.now }
    ensures { Shows rec.now result (λ b. access_of Code b p.now) }
{
    let opened = has_flag(rec, Flag::Opened);
    if opened || 3 <= rec[AT_TRIES] {
        return Access::Missing;
    }
    if word_at(p, 0) == word_at(rec, AT_CODE) {
        return Access::Given;
    }
    Access::WrongCode
}

// An unlocked board, with configuration mode closed.
fn lock_access(rec: &[u8]) -> Access
    requires { Sound rec.now }
    ensures { Shows rec.now result (λ b. access_of Unlocked b []) }
{
    if has_flag(rec, Flag::Opened) {
        return Access::Missing;
    }
    if has_flag(rec, Flag::Unlocked) {
        return Access::Given;
    }
    Access::Missing
}

// 62: what the entry of a built command asks of the board. The mode first, as for most nothing else is asked.
fn check_access(entry: u8, rec: &[u8], p: &[u8]) -> Access
    requires sound { Sound rec.now }
    requires value { (is_built entry ≡ true) × (is_tidy entry ≡ true) × (asks (need_in entry) ≤ length p.now) }
    ensures { Shows rec.now result (λ b. access_of (need_in entry) b p.now) }
{
    if has_flag(rec, Flag::Opened) {
        if entry / OPENED % 2 == 1 {
            return Access::Given;
        }
        return Access::Missing;
    }
    if entry / CLOSED % 2 != 1 {
        return Access::Missing;
    }
    if entry < LOCK {
        return Access::Given;
    }
    if entry < CODE {
        return lock_access(rec);
    }
    code_access(rec, p)
}

// What the entry of a number decides; the range is looked at where the command is known.
pub fn judge(entry: u8, rec: &[u8], p: &[u8]) -> Result<(), Refusal>
    requires sound { Sound rec.now }
    requires known { Known entry }
    ensures { Shows rec.now result (λ b. judged_by (unpacked entry) b p.now) }
{
    let numbered = check_number(entry);
    let Numbered::AsCommand = numbered else {
        return match numbered {
            Numbered::AsNotBuilt => Err(Refusal::Unbuilt),
            _ => Err(Refusal::Unknown),
        };
    };
    let Counted::Right = check_count(entry, p.len()) else {
        return Err(Refusal::Miscounted);
    };
    let access = check_access(entry, rec, p);
    let Access::Given = access else {
        return match access {
            Access::WrongCode => Err(Refusal::BadCode),
            _ => Err(Refusal::NoAccess),
        };
    };
    Ok(())
}
