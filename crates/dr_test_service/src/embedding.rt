//! How a program embeds a service: one thread publishes files of records, while another asks.

ghost use Rattle.std.specs.Prelude.{◌≡◌};
ghost use Rattle.dr_nested.specs.SchemaView.{schema_view};
ghost use Rattle.dr_sub.specs.Texts.{ArePlansOver};

use dr_nested::Schema;
use dr_service::{Answer, Ground, PublishFault, Publisher, Room, Service};
use dr_sub::NestedPlan;
use std::alloc::Global;
use std::marker::Brand;
use std::sync::Wait;
use std::thread::{Threads, join};

/// Publishes files, one after another.
fn publish_each<B: Room, R: Wait>(
    rt: &R,
    alloc: Global,
    service: &Service<'_, B>,
    publisher: &mut Publisher<B>,
    files: Vec<Vec<u8>>,
) -> Result<(), PublishFault> {
    for file in files {
        service.publish(rt, alloc, publisher, file)?;
    }
    Ok(())
}

/// Publishes files in one thread and asks in another, whatever is published by then. Then it tells the asker what was
/// published, and asks once more.
pub fn publish_and_ask<B: Room + Send + Sync, R: Threads + Wait + Sync>(
    rt: &R,
    alloc: Global,
    ground: Ground,
    schema: &Schema,
    plans: &NestedPlan,
    files: Vec<Vec<u8>>,
) -> Result<Answer, PublishFault>
    requires ground { ground ≡ B.table }
    requires schema { schema_view schema.now ≡ B.schema }
    requires planned { ArePlansOver B.schema plans.now }
{
    let (service, mut publisher, mut askers) = Service::<B>::new(alloc, ground, schema, 1)?;
    let Some(mut asker) = askers.pop() else {
        unreachable!();
    };
    let (published, answered) = join(
        rt,
        || publish_each(rt, alloc, &service, &mut publisher, files),
        ||
            requires { ArePlansOver B.schema plans.now }
        { service.query(rt, alloc, &mut asker, plans) },
    );
    published?;
    answered?;
    let note = service.note(&mut publisher);
    service.learn(&mut asker, note);
    Ok(service.query(rt, alloc, &mut asker, plans)?)
}

/// What a query means on the records of all these files. The service is named here.
pub fn answer_of_files<R: Threads + Wait + Sync>(
    rt: &R,
    alloc: Global,
    schema: &Schema,
    plans: &NestedPlan,
    files: Vec<Vec<u8>>,
) -> Result<Answer, PublishFault>
    requires { ArePlansOver (schema_view schema.now) plans.now }
{
    let ground = Ground::new(alloc)?;
    publish_and_ask::<Brand, R>(rt, alloc, ground, schema, plans, files)
}
