//! The commands: what a command line asks for.

mod ask;
mod dump;
mod explain;
mod fsm;
mod gen_values;
mod load;
mod query;
mod session;
mod show_schema;
mod stripe;
mod trial;

pub use ask::Ask;
pub use dump::Dump;
pub use explain::Explain;
pub use fsm::Fsm;
pub use gen_values::Gen;
pub use load::Load;
pub use query::Query;
pub use session::Session;
pub use show_schema::ShowSchema;
pub use stripe::Stripe;
pub use trial::Trial;

/// What a command line asks for.
#[derive(Drop)]
pub enum Command {
    Load(Load),
    Query(Query),
    Ask(Ask),
    Dump(Dump),
    Stripe(Stripe),
    Fsm(Fsm),
    ShowSchema(ShowSchema),
    Explain(Explain),
    Gen(Gen),
    Trial(Trial),
    Session(Session),
}
