//! The bags after each record, the ends of lanes, the router, and shards with their workers.

mod lanes;
mod procedures;
mod routers;
mod shards;
