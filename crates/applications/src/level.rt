// A level: a binary64 number from −1,000,000 to 1,000,000, never a minus zero.
ghost use Rattle.std.specs.Prelude.{T};
ghost use Rattle.applications.specs.Levels.{is_level};

#[derive(Clone, Copy)]
pub struct Level {
    pub(crate) value: f64,
    ghost ok: { T (is_level value) },
}
