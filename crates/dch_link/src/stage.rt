ghost use Rattle.std.specs.Prelude.{◌≡◌, ◌≤◌, IfSome, true};
ghost use Rattle.dch_link.specs.Passing.{IsStage, is_first, next_stage, stages_left};

/// How many stages a radio frame has.
pub const STAGES: u32 = 20;

/// A stage of a radio frame of 10 ms on its way through the nodes. They come in this order, set by set.
#[derive(Clone, Copy)]
pub enum Stage {
    /// 10 ms pass at the network controller, which sends downlink Iub frames.
    RncTick,
    /// The downlink Iub frame of a set arrives at the Node B.
    IubDown(u8),
    /// The Node B sends the downlink radio frame.
    RadioDown,
    /// The downlink radio frame arrives at the terminal, where 10 ms pass. It sends the uplink radio frame.
    UeTick,
    /// The uplink radio frame arrives at the Node B, which sends uplink Iub frames.
    RadioUp,
    /// The uplink Iub frame of a set arrives at the network controller.
    IubUp(u8),
}

impl Stage {
    /// The stage after this one, if it isn't the last one of the radio frame.
    pub fn next(self) -> Option<Stage>
        requires { IsStage self }
        ensures value { result ≡ next_stage self }
        ensures stage { IfSome result IsStage }
    {
        match self {
            Stage::RncTick => Some(Stage::IubDown(0)),
            Stage::IubDown(7) => Some(Stage::RadioDown),
            Stage::IubDown(set) => Some(Stage::IubDown(set + 1)),
            Stage::RadioDown => Some(Stage::UeTick),
            Stage::UeTick => Some(Stage::RadioUp),
            Stage::RadioUp => Some(Stage::IubUp(0)),
            Stage::IubUp(7) => None,
            Stage::IubUp(set) => Some(Stage::IubUp(set + 1)),
        }
    }

    /// Whether a radio frame begins with this stage.
    pub fn is_first(self) -> bool
        ensures { result ≡ is_first self }
    {
        matches!(self, Stage::RncTick)
    }

    /// How many stages of the radio frame are left, this one included.
    pub fn left(self) -> u32
        requires { IsStage self }
        ensures value { result ≡ stages_left self }
        ensures few { result ≤ STAGES }
    {
        match self {
            Stage::RncTick => STAGES,
            Stage::IubDown(set) => 19 - u32::from(set),
            Stage::RadioDown => 11,
            Stage::UeTick => 10,
            Stage::RadioUp => 9,
            Stage::IubUp(set) => 8 - u32::from(set),
        }
    }
}
