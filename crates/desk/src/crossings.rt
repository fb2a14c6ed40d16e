// The crossings of two records, and their lines.
ghost use Rattle.std.specs.Prelude.{◌≡◌, ◌+◌, ◌*◌, ◌≤◌, ◌++◌, length, map, OnOk, OnErr};
ghost use Rattle.arrayvec.specs.ArrayVec.{array_vec_len};
ghost use Rattle.hits.specs.Hit.{hit_from};
ghost use Rattle.checks.specs.Refusal.{refusal_told};
ghost use Rattle.calls_curves.specs.Curves.{curves_outcome};
ghost use Rattle.desk_print.specs.Printed.{longest_hit_line, hit_lines};
ghost use Rattle.desk.specs.Refused.{pair_refusal};
ghost use Rattle.desk.specs.Reply.{crossed};
ghost use Rattle.desk.specs.Answer.{room_need, out_need, Shows};

use arrayvec::ArrayVec;
use checks::Refusal;
use curves::Curve;
use hits::{CurveHit, HIT};

// The lines of hits, each as its numbers, counted from 1.
fn put_hits<const N: usize>(out: &mut ArrayVec<u8, N>, line: u64, hits: &[[f64; HIT]])
    requires { array_vec_len out.old + longest_hit_line * length hits.now ≤ N }
    ensures { out.new.items ≡ out.old.items ++ hit_lines line 1 (map hit_from hits.now) }
{
    for (i, h) in hits.iter().enumerate() {
        desk_print::hit_line(out, line, (i + 1) as u64, CurveHit::from(*h));
    }
}

pub fn cross<const N: usize>(
    a: Curve,
    b: Curve,
    depth: u32,
    line: u64,
    room: &mut [f64],
    out: &mut ArrayVec<u8, N>,
) -> Result<(), Refusal>
    requires room { room_need ≤ length room.old }
    requires out { array_vec_len out.old + out_need ≤ N }
    ensures refused { refusal_told result ≡ pair_refusal a b depth }
    ensures ok { OnOk result (Shows (crossed line (curves_outcome a b depth)) room.old out.old.items room.new out.new.items) }
    ensures err { OnErr result ((room.new ≡ room.old) × (out.new ≡ out.old)) }
{
    let t = calls_curves::intersect(a, b, depth, room)?;
    put_hits(out, line, hits::first_hits(room, t.hits));
    desk_print::end_line(out, line, t);
    Ok(())
}
