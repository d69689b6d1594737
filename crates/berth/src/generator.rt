// The simulated berth: its generator, and one step for each slot (02, W12).
ghost use Rattle.std.specs.Prelude.{◌≡◌};
ghost use Rattle.berth.specs.Steps.{seeded, drawn, stepped};

// The generator's 32 bits, and of the slot stepped last whether it is lost, and its true value.
#[derive(Clone, Copy)]
pub struct Berth {
    pub x: u32,
    pub lost: bool,
    pub value: u32,
}

impl Berth {
    pub fn new(seed: u32) -> Berth
        ensures { result ≡ seeded seed }
    {
        Berth {
            x: seed,
            lost: false,
            value: 0,
        }
    }

    pub fn draw(self) -> Berth
        ensures { result ≡ drawn self }
    {
        let y = self.x ^ (self.x << 13);
        let z = y ^ (y >> 17);
        Berth {
            x: z ^ (z << 5),
            ..self
        }
    }

    // The next slot: `loss` in a thousand are lost, and its true value is at most `most`.
    pub fn step(self, loss: u32, most: u32) -> Berth
        ensures { result ≡ stepped loss most self }
    {
        let first = self.draw();
        let second = first.draw();
        Berth {
            x: second.x,
            lost: first.x % 1000 < loss,
            value: (second.x as u64 % (most as u64 + 1)) as u32,
        }
    }
}
