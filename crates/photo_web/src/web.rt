// A valid photometric web.
ghost use Rattle.std.specs.Prelude.{◌≡◌, ◌<◌, ◌≤◌, ◌^◌, IfOk, length};
ghost use Rattle.duties.specs.Duties.{first, Answers};
ghost use Rattle.photo_web.specs.Web.{plane_values, value_at};
ghost use Rattle.photo_web.specs.Validity.{IsWeb, web_duties};

use crate::WebFault;
use crate::checks::web_fault;
use std::alloc::Global;
use std::marker::Model;

/// A valid photometric web. Contracts see its planes, its gammas and its values.
#[derive(Debug, Drop)]
pub struct Web {
    planes: Vec<u32>,
    gammas: Vec<u32>,
    values: Vec<u64>,
}

impl Model for Web {
    ghost use Rattle.photo_web.specs.Web.{PhotometricWeb};
    ghost use Rattle.photo_web.specs.Validity.{IsWeb};

    ghost Value = { PhotometricWeb };

    ghost view = { λ w. record { planes = w.planes.items; gammas = w.gammas.items; values = w.values.items } };

    ghost invariant = { λ w. IsWeb (record { planes = w.planes.items; gammas = w.gammas.items; values = w.values.items }) };
}

impl Web {
    /// A web of these planes and gammas (millidegrees) and values (microcandela, plane by plane, one for each gamma),
    /// which are copied. The first test that fails gives the error; `Memory` may come in the place of any.
    pub fn new(
        alloc: Global,
        planes: &[u32],
        gammas: &[u32],
        values: &[u64],
    ) -> Result<Web, WebFault>
        requires planes { length planes.now < 2 ^ 32 }
        requires gammas { length gammas.now < 2 ^ 32 }
        ensures web { IfOk result (λ w. w ≡ record { planes = planes.now; gammas = gammas.now; values = values.now }) }
        ensures answer { Answers WebFault.Memory (first (web_duties (record { planes = planes.now; gammas = gammas.now; values = values.now }))) result }
    {
        if let Some(fault) = web_fault(planes, gammas, values) {
            return Err(fault);
        }
        let planes = Vec::from_slice(alloc, planes)?;
        let gammas = Vec::from_slice(alloc, gammas)?;
        let values = Vec::from_slice(alloc, values)?;
        Ok(Web::from_vecs(planes, gammas, values))
    }

    /// A web of vectors that are known to be valid, which are moved: nothing is tested again and nothing copied.
    pub fn from_vecs(planes: Vec<u32>, gammas: Vec<u32>, values: Vec<u64>) -> Web
        requires { IsWeb (record { planes = planes.items; gammas = gammas.items; values = values.items }) }
        ensures { result ≡ record { planes = planes.items; gammas = gammas.items; values = values.items } }
    {
        Web {
            planes,
            gammas,
            values,
        }
    }

    /// The planes in millidegrees, 2 to `MOST_PLANES`, rising strictly from 0 to 360,000.
    pub fn planes(&self) -> &[u32]
        ensures value { result.now ≡ self.now.planes }
        ensures valid { IsWeb self.now }
    {
        self.planes.as_slice()
    }

    /// The gammas in millidegrees, 2 to `MOST_GAMMAS`, rising strictly within 0 to 180,000.
    pub fn gammas(&self) -> &[u32]
        ensures value { result.now ≡ self.now.gammas }
        ensures valid { IsWeb self.now }
    {
        self.gammas.as_slice()
    }

    /// The value on a plane at a gamma, in microcandela, at most 10^15.
    pub fn value(&self, plane: usize, gamma: usize) -> u64
        requires plane { plane < length self.now.planes }
        requires gamma { gamma < length self.now.gammas }
        ensures value { result ≡ value_at self.now plane gamma }
        ensures limited { result ≤ 10 ^ 15 }
    {
        self.values[plane * self.gammas.len() + gamma]
    }

    /// The values on a plane, one for each gamma.
    pub fn row(&self, plane: usize) -> &[u64]
        requires { plane < length self.now.planes }
        ensures { result.now ≡ plane_values self.now plane }
    {
        let width = self.gammas.len();
        &self.values[plane * width..(plane + 1) * width]
    }
}
