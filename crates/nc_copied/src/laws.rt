//! The law of copies, over the definitions alone.

ghost use Rattle.nc_copied.specs.Laws.{EachCopyIsDone};

/// Proves, of each copy that is answered done before the first touch (`IsDone`): with its poll the destination has the
/// source's bytes in flat memory; at the answer the hart sees flat memory in the destination, which still has the
/// source's bytes if the channel wrote nothing since the poll. Before the first touch no copy is answered failed. It
/// holds of every accepted scenario and every list of events that name what exists, whatever happens in whatever order.
pub fn copied_law()
    ensures { EachCopyIsDone }
{}
