// What must cross threads may, where bodies may.
use crate::desk::Desk;
use crate::plain::PlainTable;
use crate::seat::Seat;
use crate::table::SharedTable;

fn is_send<T: Send>() {}

fn is_sync<T: Sync>() {}

// Workers share the table, and each has a seat of its own.
fn crosses_threads<'t, B: Send + 't>() {
    is_sync::<SharedTable<B>>();
    is_send::<SharedTable<B>>();
    is_send::<Seat<B>>();
    is_send::<Desk<'t, B>>();
    is_send::<PlainTable<B>>();
}
