//! Laws of the definitions.
ghost use Rattle.reactor_ports.specs.Playing.{FinishedWhereOver};

/// Ports that are ready and have nobody to hear Writable answer Finished where the script is through or
/// the Await that stands first has used its turns. (`next` says that it comes nowhere else.)
pub fn law_finished_where_over()
    ensures { FinishedWhereOver }
{}
