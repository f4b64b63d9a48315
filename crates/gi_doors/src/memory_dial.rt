// A dial in memory, which has one link.
ghost use Rattle.std.specs.Prelude.{◌≡◌, ◌≤◌, [], Some, None, MatchOption, All, length, option_to_list};
ghost use Rattle.gi_doors.specs.Dial.{Dials, HangsUpDialed};
ghost use Rattle.gi_doors.specs.DialScript.{GivesOnce, count_given, dials_failed};
ghost use Rattle.gi_doors.specs.DialState.{HasLinkOut};
ghost use Rattle.gi_doors.specs.Fresh.{IsFresh};
ghost use Rattle.gi_outside.specs.MemoryState.{memory_state};

use crate::{Dial, Dialed};
use gi_outside::MemoryLink;

/// A dial in memory. The first call gives its link, and each later one fails. It keeps the link
/// when that is hung up.
#[derive(Drop)]
pub struct MemoryDial {
    link: Option<MemoryLink>,
    done: Option<MemoryLink>,
    faults: u64,
    ghost fresh: { All (λ l. IsFresh (memory_state l)) (option_to_list link) },
    ghost few: { length (option_to_list done) ≤ count_given link },
}

impl MemoryDial {
    ghost use Rattle.gi_doors.specs.MemoryDialState.{dial_link, dial_done, dial_state};

    /// A dial with this link, through which nothing has gone.
    pub fn new(link: MemoryLink) -> MemoryDial
        requires { IsFresh (memory_state link) }
        ensures state { dial_state result ≡ record { faults = 0; given = Some 0; hung = Some [] } }
        ensures link { dial_link result ≡ Some link }
    {
        MemoryDial {
            link: Some(link),
            done: None,
            faults: 0,
        }
    }

    /// The link that was hung up. None exactly where none was.
    pub fn done(&self) -> Option<&MemoryLink>
        ensures { MatchOption result (dial_done self.now ≡ None)
            (λ l. dial_done self.now ≡ Some l.now) }
    {
        self.done.as_ref()
    }
}

impl Dial for MemoryDial {
    ghost use Rattle.gi_doors.specs.MemoryDialState.{dial_link, dial_state};

    type L = MemoryLink;

    ghost state = { dial_state };

    ghost hung_were_given = { λ d. d.few };

    fn dial(&mut self, _port: u16) -> Dialed<MemoryLink>
        ensures count { (dial_state self.old).faults ≤ (dial_state self.new).faults }
        ensures does { Dials memory_state result (dial_state self.old) (dial_state self.new) }
        ensures once { GivesOnce result (dial_link self.old) (dial_link self.new) }
        ensures faults { (dial_state self.new).faults
            ≡ dials_failed result (dial_state self.old).faults }
    {
        match self.link.take() {
            Some(link) => Dialed::Link(link),
            None => {
                self.faults = self.faults.saturating_add(1);
                Dialed::Failed
            }
        }
    }

    fn hang_up(&mut self, link: MemoryLink)
        requires { HasLinkOut (dial_state self.old) }
        ensures count { (dial_state self.old).faults ≤ (dial_state self.new).faults }
        ensures does { HangsUpDialed link (dial_state self.old) (dial_state self.new) }
    {
        self.done = Some(link);
    }
}
