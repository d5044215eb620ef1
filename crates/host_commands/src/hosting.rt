//! The whole call of the host's program.

ghost use Rattle.std.specs.Prelude.{◌≡◌, ◌≤◌, ◌⊎◌, ℕ, List, [], Some, None, true, false, map, string_bytes};
ghost use Rattle.ghost_model.specs.core.Causes.{Rose};
ghost use Rattle.ghost_model.specs.core.Channel.{Catalog};
ghost use Rattle.ghost_model.specs.forms.Catalog.{current_version};
ghost use Rattle.ghost_model.specs.core.Host.{host_of};
ghost use Rattle.ghost_model.specs.core.Split.{Public, SpellsImage};
ghost use Rattle.edge_traits.specs.Counting.{WentCounting};
ghost use Rattle.edge_traits.specs.Files.{file_of};
ghost use Rattle.host_exec.specs.Checked.{IsNoImage};
ghost use Rattle.host_exec.specs.Hosts.{name_of};
ghost use Rattle.host_exec.specs.Sessions.{HoldsIn};
ghost use Rattle.host_exec.specs.declared.stage.Stage.TheVariants as stage;
ghost use Rattle.host_commands.specs.Hosting.{Hosts, BlamesLink, HoldsImage, Completes};
ghost use Rattle.host_commands.specs.Statuses.{is_early, may_follow_fault};
ghost use Rattle.host_commands.specs.Words.{Names, reading};

use crate::port::print_port;
use crate::status::{HostStatus, after_session, not_begun, not_read};
use crate::words::read_words;
use edge_traits::depot::Depot;
use edge_traits::link::Link;
use edge_traits::sink::Sink;
use ghost_model::catalogs::catalogs_have_one_spelling;
use host_exec::Host;
use host_exec::laws::images_are_held;
use std::alloc::Global;

/// Listens at an address, tells the port, and serves the first key that calls there.
fn host_one<D: Depot, L: Link, O: Sink>(
    host: &mut Host,
    at: &str,
    depot: &mut D,
    link: &mut L,
    out: &mut O,
) -> HostStatus
    requires begins { host.old.stage ≡ stage.Greeting }
    ensures hosts { Hosts (λ journal. WentCounting (λ one. L.went link.old one link.new) (L.faults link.old) (L.faults link.new) journal) at.now result (O.written out.old) (O.written out.new) (D.faults depot.old) (D.faults depot.new)
        (λ held. HoldsIn (λ file. file_of (D.contents depot.old) (name_of host.old) ≡ Some file) held host.old) }
    ensures late { is_early result ≡ false }
    ensures sink { result ≡ HostStatus.Sink → Rose (O.faults out.old) (O.faults out.new) }
    ensures no_sink { (result ≡ HostStatus.Sink → ⊥) → O.faults out.new ≡ O.faults out.old }
    ensures depot { result ≡ HostStatus.Depot → Rose (D.faults depot.old) (D.faults depot.new) }
    ensures no_depot { may_follow_fault result ≡ false → D.faults depot.new ≡ D.faults depot.old }
    ensures link { BlamesLink (λ journal. L.went link.old journal link.new) result (L.faults link.old) (L.faults link.new) }
    ensures never_falls { D.faults depot.old ≤ D.faults depot.new }
    ensures appends { D.append_faults depot.new ≡ D.append_faults depot.old }
    ensures same { D.contents depot.new ≡ D.contents depot.old }
{
    let port = match link.listen(at) {
        Err(_) => return HostStatus::Link,
        Ok(port) => port,
    };
    match print_port(out, port) {
        Err(_) => return HostStatus::Sink,
        Ok(()) => {}
    }
    match link.accept() {
        Err(_) => return HostStatus::Link,
        Ok(()) => {}
    }
    let served = host.serve(link, depot);
    after_session(&served)
}

/// Does what the words say, of which the first is the program's name: opens the visible file, listens, prints `port p`
/// and LF with the port that it got, accepts one key, serves it and ends.
///
/// A fault of the output ends it before it accepts. Memory is taken before it listens alone. The status is `Link` exactly
/// where a call on the link failed, which its count shows, or the key's stream ended ahead of its farewell.
pub fn host_main<D: Depot, L: Link, O: Sink>(
    alloc: Global,
    words: &[String],
    depot: &mut D,
    link: &mut L,
    out: &mut O,
) -> HostStatus
    ensures usage { result ≡ HostStatus.Usage → reading (map string_bytes words.now) ≡ None }
    ensures other_words { reading (map string_bytes words.now) ≡ None → (result ≡ HostStatus.Usage) ⊎ (result ≡ HostStatus.NoMemory) }
    ensures hosts { (names : Names) → reading (map string_bytes words.now) ≡ Some names
        → Hosts (λ journal. WentCounting (λ one. L.went link.old one link.new) (L.faults link.old) (L.faults link.new) journal) names.at result (O.written out.old) (O.written out.new) (D.faults depot.old) (D.faults depot.new)
        (HoldsImage (λ file. file_of (D.contents depot.old) names.visible ≡ Some file)) }
    ensures bad_file { (names : Names) → (file : List ℕ) → reading (map string_bytes words.now) ≡ Some names → file_of (D.contents depot.old) names.visible ≡ Some file
        → result ≡ HostStatus.BadVisibleFile → IsNoImage file }
    ensures no_image { (names : Names) → (file : List ℕ) → reading (map string_bytes words.now) ≡ Some names → file_of (D.contents depot.old) names.visible ≡ Some file
        → IsNoImage file → (Rose (D.faults depot.old) (D.faults depot.new) → ⊥) → (result ≡ HostStatus.BadVisibleFile) ⊎ (result ≡ HostStatus.NoMemory) }
    ensures early_moves { is_early result ≡ true → L.went link.old [] link.new }
    ensures early_lines { is_early result ≡ true → O.written out.new ≡ O.written out.old }
    ensures sink { result ≡ HostStatus.Sink → Rose (O.faults out.old) (O.faults out.new) }
    ensures no_sink { (result ≡ HostStatus.Sink → ⊥) → O.faults out.new ≡ O.faults out.old }
    ensures depot { result ≡ HostStatus.Depot → Rose (D.faults depot.old) (D.faults depot.new) }
    ensures no_depot { may_follow_fault result ≡ false → D.faults depot.new ≡ D.faults depot.old }
    ensures link { BlamesLink (λ journal. L.went link.old journal link.new) result (L.faults link.old) (L.faults link.new) }
    ensures never_falls { D.faults depot.old ≤ D.faults depot.new }
    ensures complete { (names : Names) → (file : List ℕ) → (catalog : Catalog) → (public : Public) → reading (map string_bytes words.now) ≡ Some names
        → file_of (D.contents depot.old) names.visible ≡ Some file → catalog.version ≡ current_version → SpellsImage catalog public file
        → (Rose (D.faults depot.old) (D.faults depot.new) → ⊥) → (Rose (O.faults out.old) (O.faults out.new) → ⊥)
        → Completes (λ journal. L.went link.old journal link.new) (host_of catalog public) result }
    ensures appends { D.append_faults depot.new ≡ D.append_faults depot.old }
    ensures same { D.contents depot.new ≡ D.contents depot.old }
{
    catalogs_have_one_spelling();
    images_are_held();
    match read_words(alloc, words) {
        Err(fault) => not_read(fault),
        Ok(said) => match Host::begin(alloc, depot, said.visible) {
            Err(fault) => not_begun(&fault),
            Ok(mut host) => host_one(&mut host, said.at, depot, link, out),
        },
    }
}
