use tm_base::Ticket;
use tm_ring::Outbox;
use tm_shared::Passes;

/// What a worker hands back once it is done: its program, its passes, its ticket and its outbox.
#[derive(Drop)]
pub struct Home<B> {
    pub body: B,
    pub passes: Passes,
    pub ticket: Ticket,
    pub outbox: Outbox,
}

/// Memory ran out where a worker was made: what it was to be made of is handed back.
#[derive(Drop)]
pub struct WorkerFault<B> {
    pub body: B,
    pub passes: Passes,
    pub outbox: Outbox,
}
