ghost use Rattle.std.specs.Prelude.{◌≡◌};
ghost use Rattle.plan_text.specs.PlanText.{state_line, has_places, is_block_due};

use seq_model::Plan;

/// What a plan file says of its plan.
#[derive(Clone, Copy, Debug, PartialEq, Eq)]
pub enum State {
    /// A plan on the grid's whole plate.
    Found,
    /// A plan at the least extent; a certificate shows that no smaller extent has one.
    Least,
    /// A plan, and a search below its extent that its budget ended.
    OpenBudget,
    /// A plan, and a search below its extent that numbers grown too wide ended.
    OpenWide,
    /// No plan exists, as a certificate shows.
    NoPlan,
    /// No plan was found before the budget ended the search.
    UndecidedBudget,
    /// No plan was found before numbers grown too wide ended the search.
    UndecidedWide,
}

impl State {
    pub(crate) fn line(self) -> &'static [u8]
        ensures { result.now ≡ state_line self }
    {
        match self {
            State::Found => b"state found\n",
            State::Least => b"state least\n",
            State::OpenBudget => b"state open budget\n",
            State::OpenWide => b"state open wide\n",
            State::NoPlan => b"state none\n",
            State::UndecidedBudget => b"state undecided budget\n",
            State::UndecidedWide => b"state undecided wide\n",
        }
    }

    /// Whether extent, scale and places stand in a file of this state.
    pub fn has_places(self) -> bool
        ensures { result ≡ has_places self }
    {
        match self {
            State::Found | State::Least | State::OpenBudget | State::OpenWide => true,
            State::NoPlan | State::UndecidedBudget | State::UndecidedWide => false,
        }
    }
}

/// The lines of a plan file before its tree block. Where the state has no places, the extent is 0, the scale 1 and the
/// places empty.
#[derive(Debug, Drop)]
pub struct PlanFile {
    pub state: State,
    pub grid: u32,
    pub extent: u32,
    pub plan: Plan,
}

impl PlanFile {
    /// Whether a tree block is due behind the plan's own lines.
    pub fn is_block_due(&self) -> bool
        ensures { result ≡ is_block_due self.now.state self.now.extent }
    {
        match self.state {
            State::Found => false,
            State::Least => self.extent > 1,
            _ => true,
        }
    }
}
