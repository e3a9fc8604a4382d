// The tables of 3GPP TS 25.212, 4.2.3.2.3. They are read here alone, so that no other proof has their text in its goals; and each is read
// once a call, since a const that is indexed is laid out anew at every read.
ghost use Rattle.std.specs.Prelude.{◌≡◌, [], ◌<◌, get_or};
ghost use Rattle.wcdma_shape.specs.Rectangle.{primes};
ghost use Rattle.wcdma_shape.specs.Powers.{root};
ghost use Rattle.wcdma_shape.specs.Orders.{row_orders};

const PRIMES: [u16; 52] = [
    7, 11, 13, 17, 19, 23, 29, 31, 37, 41, 43, 47, 53, 59, 61, 67, 71, 73, 79, 83, 89, 97, 101,
    103, 107, 109, 113, 127, 131, 137, 139, 149, 151, 157, 163, 167, 173, 179, 181, 191, 193, 197,
    199, 211, 223, 227, 229, 233, 239, 241, 251, 257,
];

const ROOTS: [u8; 52] = [
    3, 2, 2, 3, 2, 5, 2, 3, 2, 6, 3, 5, 2, 2, 2, 2, 7, 5, 3, 2, 3, 5, 2, 5, 2, 6, 3, 3, 2, 3, 2, 2,
    6, 5, 2, 5, 2, 2, 2, 19, 5, 2, 3, 2, 3, 2, 6, 3, 7, 7, 6, 3,
];

const ORDERS: [[u8; 20]; 2] = [
    [
        19, 9, 14, 4, 0, 2, 5, 7, 12, 18, 16, // T(10), where the orders part
        13, // T(11)
        17, 15, 3, 1, 6, 11, 8, 10,
    ],
    [
        19, 9, 14, 4, 0, 2, 5, 7, 12, 18, 10, 8, 13, 17, 3, 1, 16, 6, 15, 11,
    ],
];

pub(super) fn primes_table() -> [u16; 52]
    ensures { result ≡ primes }
{
    PRIMES
}

// v of the prime at place n.
pub(super) fn root_at(n: usize) -> u32
    requires { n < 52 }
    ensures { result ≡ root (get_or primes n 0) }
{
    ROOTS[n] as u32
}

// One of the two row orders of twenty rows.
pub(super) fn order_at(n: usize) -> [u8; 20]
    requires { n < 2 }
    ensures { result ≡ get_or row_orders n [] }
{
    ORDERS[n]
}
