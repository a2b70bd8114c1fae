ghost use Rattle.std.specs.Prelude.{◌≡◌, ◌≤◌, ◌+◌, ◌*◌, IfSome};
ghost use Rattle.dch_link.specs.SoftPassing.{IsStage, leg_of, next_stage, stages_left};

/// A stage of a radio frame of 10 ms on its way through the nodes. They come in this order, leg by leg and set by set.
#[derive(Clone, Copy)]
pub enum Stage {
    /// 10 ms pass at the network controller, which sends downlink Iub frames.
    RncTick,
    /// The downlink Iub frame of a set arrives at the Node B of a leg.
    IubDown { leg: u8, set: u8 },
    /// The Node B of a leg sends its downlink radio frame.
    RadioDown(u8),
    /// The terminal hears the downlink radio frame of a leg, and 10 ms pass there. It sends the uplink radio frame.
    UeTick,
    /// The uplink radio frame arrives at the Node B of a leg, which sends uplink Iub frames.
    RadioUp(u8),
    /// The uplink Iub frame of a set from a leg arrives where the frames of the legs are combined.
    IubUp { set: u8, leg: u8 },
    /// The combined frame of a set arrives at the network controller.
    Combine(u8),
}

impl Stage {
    /// The stage after this one where there are so many legs, if it isn't the last one of the radio frame.
    pub fn next(self, legs: u8) -> Option<Stage>
        requires stage { IsStage legs self }
        requires some { 1 ≤ legs }
        requires few { legs ≤ 6 }
        ensures value { result ≡ next_stage legs self }
        ensures stage { IfSome result (IsStage legs) }
    {
        match self {
            Stage::RncTick => Some(Stage::IubDown { leg: 0, set: 0 }),
            Stage::IubDown { leg, set: 7 } => Some(Stage::RadioDown(leg)),
            Stage::IubDown { leg, set } => Some(Stage::IubDown { leg, set: set + 1 }),
            Stage::RadioDown(leg) if leg + 1 < legs => Some(Stage::IubDown {
                leg: leg + 1,
                set: 0,
            }),
            Stage::RadioDown(_) => Some(Stage::UeTick),
            Stage::UeTick => Some(Stage::RadioUp(0)),
            Stage::RadioUp(leg) if leg + 1 < legs => Some(Stage::RadioUp(leg + 1)),
            Stage::RadioUp(_) => Some(Stage::IubUp { set: 0, leg: 0 }),
            Stage::IubUp { set, leg } if leg + 1 < legs => Some(Stage::IubUp { set, leg: leg + 1 }),
            Stage::IubUp { set, leg: _ } => Some(Stage::Combine(set)),
            Stage::Combine(7) => None,
            Stage::Combine(set) => Some(Stage::IubUp {
                set: set + 1,
                leg: 0,
            }),
        }
    }

    /// How many stages of the radio frame are left where there are so many legs, this one included.
    pub fn left(self, legs: u8) -> u32
        requires stage { IsStage legs self }
        requires few { legs ≤ 6 }
        ensures value { result ≡ stages_left legs self }
        ensures few { result ≤ 10 + 18 * legs }
    {
        let legs = u32::from(legs);
        match self {
            Stage::RncTick => 10 + 18 * legs,
            Stage::IubDown { leg, set } => 9 + 18 * legs - 9 * u32::from(leg) - u32::from(set),
            Stage::RadioDown(leg) => 1 + 18 * legs - 9 * u32::from(leg),
            Stage::UeTick => 9 + 9 * legs,
            Stage::RadioUp(leg) => 8 + 9 * legs - u32::from(leg),
            Stage::IubUp { set, leg } => (8 - u32::from(set)) * (legs + 1) - u32::from(leg),
            Stage::Combine(set) => (8 - u32::from(set)) * (legs + 1) - legs,
        }
    }

    /// The leg whose Node B or frame the stage is about, by which the lines of its report are led. A stage of all legs
    /// has none.
    pub fn leg(self) -> Option<u8>
        ensures { result ≡ leg_of self }
    {
        match self {
            Stage::IubDown { leg, set: _ } => Some(leg),
            Stage::RadioDown(leg) => Some(leg),
            Stage::RadioUp(leg) => Some(leg),
            Stage::IubUp { set: _, leg } => Some(leg),
            Stage::RncTick | Stage::UeTick | Stage::Combine(_) => None,
        }
    }
}
