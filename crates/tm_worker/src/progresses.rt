use crate::phases::Phase;
use std::marker::Model;

/// How a worker goes on with its program.
#[derive(Drop)]
pub(crate) struct Progress<B> {
    pub(crate) phase: Phase,
    pub(crate) body: B,
    pub(crate) made: u32,
    pub(crate) short: bool,
}

impl<B> Model for Progress<B> {
    ghost use Rattle.tm_worker.specs.Progresses.{ProgressView};

    ghost Value = { ProgressView B };

    ghost view = { λ p. record { phase = p.phase; body = p.body; made = p.made; short = p.short } };
}
