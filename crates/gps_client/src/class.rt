ghost use Rattle.std.specs.Prelude.{◌≡◌, ◌↔◌, Some, None};
ghost use Rattle.json_line.specs.declared.names.Class.{Class};
ghost use Rattle.gps_client.specs.Objects.{begins, class_in};
ghost use Rattle.gps_client.specs.Texts.{Begins};

use json_line::{Class, head};

fn begins(class: Class, line: &[u8]) -> bool
    ensures { result ≡ begins class line.now }
{
    line.starts_with(head(class))
}

#[tactic(auto, unfolding(crate::specs::Objects::class_in))]
fn class_in(line: &[u8]) -> Option<Class>
    ensures { result ≡ class_in line.now }
{
    if begins(Class::Tpv, line) {
        Some(Class::Tpv)
    } else if begins(Class::Sky, line) {
        Some(Class::Sky)
    } else if begins(Class::Toff, line) {
        Some(Class::Toff)
    } else if begins(Class::Pps, line) {
        Some(Class::Pps)
    } else if begins(Class::Device, line) {
        Some(Class::Device)
    } else if begins(Class::Devices, line) {
        Some(Class::Devices)
    } else if begins(Class::Watch, line) {
        Some(Class::Watch)
    } else if begins(Class::Poll, line) {
        Some(Class::Poll)
    } else if begins(Class::Version, line) {
        Some(Class::Version)
    } else if begins(Class::Error, line) {
        Some(Class::Error)
    } else {
        None
    }
}

/// The class of a line: its bytes begin with `{"class":"`, the name of the class and `"`. `None` comes exactly if they begin so
/// with none of the ten names. Takes no memory.
pub fn class_of(line: &[u8]) -> Option<Class>
    ensures exact { (c : Class) → (result ≡ Some c) ↔ Begins c line.now }
    ensures none { (result ≡ None) ↔ ((c : Class) → ¬ Begins c line.now) }
    ensures value { result ≡ class_in line.now }
{
    let class = class_in(line);
    class
}
