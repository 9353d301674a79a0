// Newton's method along a ray, for the kinds whose sag has no solved equation: one pass, and passes until one ends.
// f(t) = z - vertex - sag(x, y) at the ray's point has the slope f' = dz - (∂z/∂x dx + ∂z/∂y dy), and t moves by -f /
// f'.
ghost use Rattle.std.specs.Prelude.{◌≡◌, ◌<◌};
ghost use Rattle.numbers.specs.Arithmetic.{0f};
ghost use Rattle.numbers.specs.Root.{root};
ghost use Rattle.surfaces.specs.Types.{no_polynomial};
ghost use Rattle.surfaces.specs.Refusal.{no_crossing, told_pair, told_crossing, told_passed, told_progress};
ghost use Rattle.surfaces.specs.Newton.{arrived_at, moved_by, pass_at, vertex_plane, newton_answer, newton_end};
ghost use Rattle.surfaces.specs.Newton.{can_be_met, pass_start, next_pass, limited_pass};
ghost use Rattle.surfaces.specs.Surface.{passes, chain_by};
ghost use Rattle.surfaces.specs.Parts.{told_within, no_depth, shape_of, shape_met, depth_of, slopes_from};

use crate::conic::landed_within;
use crate::refusal::{Refusal, checked, demand};
use crate::sags::{
    Beyond, Biconic, Depth, Toroid, even_depth, even_slopes_from, odd_depth, odd_slopes_from,
};
use crate::types::{Finite, Landing, Meridians, Polynomial, Ray, Section, Vec3, point_at};
use numbers::{abs, is_finite, root_exceeds, sqrt};

// How many passes each kind may take.
pub const STEPS_EVEN_ASPHERE: u16 = 25;

pub const STEPS_ODD_ASPHERE: u16 = 25;

pub const STEPS_BICONIC: u16 = 35;

pub const STEPS_TOROID: u16 = 35;

// The kinds that Newton's method meets. An odd asphere is no case of its own, which would make each match a jump by a
// table.
#[derive(Clone, Copy)]
pub(crate) enum Profile {
    Asphere { base: Section, odd: bool },
    Biconic(Biconic),
    Toroid(Toroid),
}

// What a pass comes to: the t of the next pass, or the surface's end.
#[derive(Clone, Copy)]
pub enum Passed {
    Again(f64),
    Ended(Result<Landing, Refusal>),
}

// How far passes came: what the last one came to, and how many they were.
#[derive(Clone, Copy)]
pub struct Progress {
    pub passed: Passed,
    pub taken: u16,
}

impl Profile {
    // The sag at p, from what its distance from the axis is the root of.
    #[tactic(auto, unfolding(crate::specs::Parts::depth_of))]
    fn depth(self, a: &Polynomial, p: Vec3, sq: f64) -> Result<Depth, Beyond>
        ensures { told_within no_depth result ≡ depth_of self a.now (root sq) p }
    {
        match self {
            Profile::Asphere { base, odd } => {
                if odd {
                    odd_depth(base, a, sqrt(sq), sq)
                } else {
                    even_depth(base, &a.even, sqrt(sq), sq)
                }
            }
            Profile::Biconic(b) => b.depth(p.x, p.y),
            Profile::Toroid(t) => t.depth(p.x, p.y),
        }
    }

    // The slopes at p, from what the sag there had.
    #[tactic(auto, unfolding(crate::specs::Parts::slopes_from))]
    fn slopes_from(self, a: &Polynomial, p: Vec3, d: Depth) -> Result<Meridians, Refusal>
        ensures { told_pair result ≡ slopes_from self a.now p d }
    {
        match self {
            Profile::Asphere { base, odd } => {
                if odd {
                    Ok(odd_slopes_from(base, a, p.x, p.y, d))
                } else {
                    even_slopes_from(base, &a.even, p.x, p.y, d)
                }
            }
            Profile::Biconic(b) => b.slopes_from(p.x, p.y, d),
            Profile::Toroid(t) => t.slopes_from(p.x, p.y, d),
        }
    }

    // Whether r is checked where the move is small: not on an even asphere.
    fn checks_last(self) -> bool
        ensures { result ≡ (shape_of self no_polynomial 0f).checks_last }
    {
        match self {
            Profile::Asphere { odd, .. } => odd,
            Profile::Biconic(_) | Profile::Toroid(_) => true,
        }
    }

    pub(crate) fn limit(self) -> u16
        ensures { result ≡ (shape_of self no_polynomial 0f).limit }
    {
        match self {
            Profile::Asphere { odd: true, .. } => STEPS_ODD_ASPHERE,
            Profile::Asphere { odd: false, .. } => STEPS_EVEN_ASPHERE,
            Profile::Biconic(_) => STEPS_BICONIC,
            Profile::Toroid(_) => STEPS_TOROID,
        }
    }
}

fn missed() -> Passed
    ensures { told_passed result ≡ no_crossing 6 }
{
    Passed::Ended(Err(Refusal::RayMissedSurface))
}

// A ray on its way to a surface of a profile, and of coefficients if it is an asphere.
#[derive(Clone, Copy)]
pub(crate) struct Approach {
    pub profile: Profile,
    pub polynomial: Polynomial,
    pub semi: f64,
    pub vertex: f64,
    pub ray: Ray,
}

impl Approach {
    // Where the move was small.
    #[tactic(auto, unfolding(crate::specs::Newton::arrived_at), using(crate::proofs::Shared::kind_alone))]
    fn arrived(&self, t: f64) -> Result<Landing, Refusal>
        ensures { told_crossing result ≡ arrived_at (shape_met self.now).checks_last self.now.semi self.now.ray t }
    {
        let p = point_at(self.ray, t);
        if self.profile.checks_last() {
            landed_within(t, p, p.x * p.x + p.y * p.y, self.semi)
        } else {
            Ok(Landing { t, point: p })
        }
    }

    // The move from t by f / f', from the residual f and the sag's slopes; singular where f' is about 0.
    #[tactic(auto, unfolding(crate::specs::Newton::moved_by), using(numbers::proofs::Literals::literals))]
    fn moved(&self, t: f64, f: f64, m: Meridians) -> Passed
        ensures { told_passed result
            ≡ moved_by (shape_met self.now).checks_last self.now.semi self.now.ray t f m }
    {
        let d = self.ray.direction;
        let slope = d.z - (m.x * d.x + m.y * d.y);
        if abs(slope) < 1e-15 {
            return Passed::Ended(Err(Refusal::NumericalSingularity));
        }
        let delta = f / slope;
        if abs(delta) < 1e-12 {
            return Passed::Ended(self.arrived(t - delta));
        }
        Passed::Again(t - delta)
    }

    // A pass from t.
    #[tactic(auto, unfolding(crate::specs::Newton::pass_at), using(crate::proofs::Shared::passing))]
    fn pass_at(&self, t: f64) -> Passed
        ensures { told_passed result ≡ pass_at (shape_met self.now) self.now.vertex self.now.ray t }
    {
        let p = point_at(self.ray, t);
        let sq = p.x * p.x + p.y * p.y;
        if root_exceeds(sq, self.semi * 1.5) {
            return missed();
        }
        let Ok(depth) = self.profile.depth(&self.polynomial, p, sq) else {
            return missed();
        };
        let f = p.z - self.vertex - depth.sag;
        if abs(f) < 1e-11 {
            return Passed::Ended(landed_within(t, p, sq, self.semi));
        }
        match self.profile.slopes_from(&self.polynomial, p, depth) {
            Ok(m) => self.moved(t, f, m),
            Err(_) => missed(),
        }
    }

    // Where the ray meets the vertex plane, and no earlier than its origin.
    #[tactic(auto, unfolding(crate::specs::Newton::vertex_plane), using(numbers::proofs::Literals::literals))]
    fn vertex_plane(&self) -> f64
        ensures { result ≡ vertex_plane self.now.vertex self.now.ray }
    {
        let t = (self.vertex - self.ray.origin.z) / self.ray.direction.z;
        if t < 0.0 { 0.0 } else { t }
    }

    // Where a pass begins: the first at the vertex plane.
    #[tactic(auto, unfolding(crate::specs::Newton::pass_start))]
    fn pass_start(&self, made: u16, t: f64) -> f64
        ensures { result ≡ pass_start self.now.vertex self.now.ray made t }
    {
        if made == 0 { self.vertex_plane() } else { t }
    }

    // The pass after `made` passes. It has one place where it passes, so that the compiler can put that here.
    #[tactic(auto, unfolding(crate::specs::Newton::next_pass), using(numbers::proofs::Literals::literals))]
    fn next_pass(&self, made: u16, t: f64) -> Passed
        ensures { told_passed result ≡ next_pass (shape_met self.now) self.now.vertex self.now.ray made t }
    {
        if (made == 0) & (abs(self.ray.direction.z) < 1e-15) {
            return missed();
        }
        self.pass_at(self.pass_start(made, t))
    }

    // The same, where the last pass that is allowed ends in a miss at worst.
    #[tactic(auto, unfolding(crate::specs::Newton::limited_pass), using(crate::proofs::Shared::passing))]
    fn limited_pass(&self, made: u16, t: f64) -> Passed
        ensures { told_passed result ≡ limited_pass (shape_met self.now) self.now.vertex self.now.ray made t }
    {
        let passed = self.next_pass(made, t);
        match passed {
            Passed::Again(_) if usize::from(self.profile.limit()) <= usize::from(made) + 1 =>
                missed(),
            _ => passed,
        }
    }

    // At most `left` passes, one after another until one ends, after `made` of them. They are counted by hand, since the
    // loop hands out its last pass, which a `for` could not.
    pub(crate) fn chain(&self, left: u16, made: u16, t: f64) -> Progress
        requires { 0 < left }
        ensures { told_progress made result
            ≡ chain_by (passes (shape_met self.now)) self.now.vertex self.now.ray left made t }
    {
        let mut at = made;
        let mut u = t;
        let mut taken: u16 = 0;
        let passed = loop {
            taken += 1;
            let x = self.limited_pass(at, u);
            match x {
                Passed::Again(v) => {
                    if taken == left {
                        break x;
                    }
                    at += 1;
                    u = v;
                }
                Passed::Ended(_) => break x,
            }
        };
        Progress { passed, taken }
    }

    // The Rust's intersect_ray of these kinds.
    fn end(&self) -> Result<Landing, Refusal>
        ensures { told_crossing result ≡ (newton_end (shape_met self.now) self.now.vertex self.now.ray).answer }
    {
        match self.chain(self.profile.limit(), 0, 0.0).passed {
            Passed::Ended(crossing) => crossing,
            // The last pass that is allowed ends.
            Passed::Again(_) => Err(Refusal::RayMissedSurface),
        }
    }

    // What a single intersection tests before it: all numbers finite, and no negative semi-diameter.
    #[tactic(auto, using(numbers::proofs::Literals::literals))]
    fn is_good(&self, good: bool) -> bool
        ensures { result ≡ can_be_met good self.now.semi self.now.ray self.now.vertex }
    {
        self.ray.all_finite() & is_finite(self.vertex) & good & !(self.semi < 0.0)
    }

    // What a surface's intersect_ray hands out, where `good` tells whether its numbers are.
    pub(crate) fn answer(&self, good: bool) -> Result<Landing, Refusal>
        ensures { told_crossing result ≡ newton_answer good (shape_met self.now) self.now.ray self.now.vertex }
    {
        demand(self.is_good(good), Refusal::InvalidParameter)?;
        checked(self.end())
    }
}
