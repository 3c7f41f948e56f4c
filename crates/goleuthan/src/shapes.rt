// The lent shape: read from its words into the library's struct.
ghost use Rattle.std.specs.Prelude.{◌≡◌, length, MatchResult};
ghost use Rattle.goleuthan.specs.Calls.{shape_long, shape_in, NotLong};

use refusals::Refusal;
use table::Shape;

// The paper's form: eight rights an entry. The C interface says a form by a number.
const EIGHTS: u32 = 0;

// The one reader of the five words of a shape, form, D, M, L and V: a call that takes a shape sees the struct alone. D is
// 0, which fits no pool, where form and V are not the paper's.
pub fn read_shape(shape: &[u32]) -> Result<Shape, Refusal>
    ensures { MatchResult result
        (λ s. (length shape.now ≡ shape_long) × (s ≡ shape_in shape.now))
        (λ r. NotLong shape.now × (r ≡ Refusal.WrongLength)) }
{
    let &[form, d, middles, leaves, v] = shape else {
        return Err(Refusal::WrongLength);
    };
    let domains = if form == EIGHTS && v == 0 { d } else { 0 };
    Ok(Shape {
        domains,
        middles,
        leaves,
    })
}
