// An export given: a bit and a right inside the words of a region.
ghost use Rattle.std.specs.Prelude.{◌≡◌, ◌<◌};
ghost use Rattle.owners.specs.Rules.{export_domains};
ghost use Rattle.owners.specs.Calls.{with_bit, with_right, with_export};

use crate::Owned;

fn with_bit(g: u32, k: u32) -> u32
    requires { k < export_domains }
    ensures { result ≡ with_bit g k }
{
    g | (1 << k)
}

fn with_right(w: u32, k: u32, right: u32) -> u32
    requires { (k < export_domains) × (right < 4) }
    ensures { result ≡ with_right w k right }
{
    w - (words::right_at(w, k) << (2 * k)) + (right << (2 * k))
}

pub(crate) fn with_export(r: Owned, domain: u32, right: u32) -> Owned
    requires { (domain < export_domains) × (right < 4) }
    ensures { result ≡ with_export r domain right }
{
    Owned {
        given: with_bit(r.given, domain),
        rights: with_right(r.rights, domain, right),
        ..r
    }
}
